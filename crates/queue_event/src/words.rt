// The words of a record.
// The first is the number of the next record: document 01 has chains within the lent words in the place of heaps.
ghost use Rattle.std.specs.Prelude.{◌≡◌, ◌<◌};
ghost use Rattle.queue_event.specs.Words.{word, put, filled, In};

// Word i of record r.
pub fn get(records: &[u64], r: u64, i: usize) -> u64
    requires within { In records.now r }
    requires field { i < 4 }
    ensures { result ≡ word records.now r i }
{
    let at = (4 * r - 4) as usize + i;
    records[at]
}

// Stores v as word i of record r.
pub fn store(records: &mut [u64], r: u64, i: usize, v: u64)
    requires within { In records.old r }
    requires field { i < 4 }
    ensures { records.new ≡ put records.old r i v }
{
    let at = (4 * r - 4) as usize + i;
    records[at] = v;
}

// Writes the record at place whole.
pub fn fill(records: &mut [u64], place: u64, next: u64, moment: u64, length: u64, tag: u64)
    requires { In records.old place }
    ensures { records.new ≡ filled records.old place next moment length tag }
{
    store(records, place, 0, next);
    store(records, place, 1, moment);
    store(records, place, 2, length);
    store(records, place, 3, tag);
}
