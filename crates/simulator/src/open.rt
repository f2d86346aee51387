// Opening a state.
ghost use Rattle.std.specs.Prelude.{◌≡◌, not, ℕ, ◌*◌, ◌≤◌, length, get_or};
ghost use Rattle.rules.specs.Opening.{rate_outside, fixed_outside, outside};
ghost use Rattle.event.specs.Answers.{answer_of};
ghost use Rattle.layout.specs.Accepted.{SizeOk};
ghost use Rattle.layout.specs.Opened.{opened_words, rate_word, record_word};
ghost use Rattle.simulator.specs.Openings.{rate_of, fixed_of, opening_of, Opens};
ghost use Rattle.simulator.specs.OpeningParts.{AllZero, put_settings};

use event::answer::{Answer, Reason};
use moment::Length;
use queue_event::words;

// What opening is given for a side.
#[derive(Clone, Copy)]
pub struct SideOpening {
    pub action_delay: Length,
    pub reporting_delay: Length,
    pub machines: u64,
}

// What opening is given: a rate, in packets, may be absent.
#[derive(Clone, Copy)]
pub struct Opening {
    pub network_delay: Length,
    pub network_rate: Option<u64>,
    pub queue_rate: Option<u64>,
    pub window: Length,
    pub client: SideOpening,
    pub server: SideOpening,
}

// ---- number 4

fn rate_fits(r: Option<u64>) -> bool
    ensures { result ≡ not (rate_outside (rate_of r)) }
{
    r.is_none_or(|p| (1..=4_294_967_295).contains(&p))
}

fn side_fits(s: SideOpening) -> bool
    ensures { result ≡ not (fixed_outside (fixed_of s)) }
{
    s.action_delay.fits() && s.reporting_delay.fits() && s.machines <= 16
}

// Whether every opening value is within its limits.
#[tactic(auto, unfolding(rules::specs::Opening::outside))]
fn fits(o: Opening) -> bool
    ensures { result ≡ not (outside (opening_of o)) }
{
    o.network_delay.fits()
        && o.window.fits()
        && rate_fits(o.network_rate)
        && rate_fits(o.queue_rate)
        && side_fits(o.client)
        && side_fits(o.server)
}

// ---- the words

// The word of a rate: 0 for absent.
fn rate_word(r: Option<u64>) -> u64
    ensures { result ≡ rate_word (rate_of r) }
{
    r.unwrap_or(0)
}

fn write_settings(block: &mut [u64], o: Opening)
    requires { 260 ≤ length block.old }
    ensures { block.new ≡ put_settings (opening_of o) block.old }
{
    block[0] = o.network_delay.0;
    block[1] = rate_word(o.network_rate);
    block[2] = rate_word(o.queue_rate);
    block[3] = o.window.0;
    block[4] = o.client.action_delay.0;
    block[5] = o.server.action_delay.0;
    block[6] = o.client.reporting_delay.0;
    block[7] = o.server.reporting_delay.0;
    block[8] = o.client.machines;
    block[9] = o.server.machines;
}

// The records are chained upward from 1.
fn chain_free(rest: &mut [u64], count: u64)
    requires records { (length rest.old ≡ 4 * count) × (1 ≤ count) }
    requires zero { AllZero rest.old }
    ensures { (length rest.new ≡ length rest.old) × ((k : ℕ) → get_or rest.new k 0 ≡ record_word count k) }
{
    for r in 1..count {
        words::store(rest, r, 0, r + 1);
    }
}

// Every word, whatever they held.
fn write_state(block: &mut [u64], o: Opening)
    requires { SizeOk (length block.old) }
    ensures { block.new ≡ opened_words (opening_of o) (length block.old) }
{
    block.fill(0);
    write_settings(block, o);
    let count = ((block.len() - 256) / 4) as u64;
    block[24] = 1;
    block[25] = count;
    chain_free(&mut block[256..], count);
}

// Opens a state in the lent words.
pub fn open(block: &mut [u64], o: Opening) -> Answer
    ensures { Opens block.old (opening_of o) (answer_of result) block.new }
{
    if !accept::size_ok(block.len()) {
        return Err(Reason::WrongLength.into());
    }
    if !fits(o) {
        return Err(Reason::OpeningOutside.into());
    }
    write_state(block, o);
    Ok(())
}
