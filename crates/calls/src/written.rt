// The answers of a choice and of a network step: the words that are written into the caller's place.
ghost use Rattle.std.specs.Prelude.{◌≡◌};
ghost use Rattle.event.specs.Answers.{choice_of, chosen_as, step_of};
ghost use Rattle.event.specs.Values.{known_event};
ghost use Rattle.calls.specs.Answers.{choice_words, step_words, out_left};

use event::answer::{Choice, Step};
use event::{Kind, SimEvent};

// The words of an event that was chosen. No choice answers one whose number is no kind's: its words are those of `done`.
fn event_words(e: SimEvent, rounds: u64) -> [u64; 10]
    ensures { result ≡ choice_words (chosen_as (known_event e) rounds) }
{
    if e.kind.0 > Kind::TIMER_END {
        return [0, 0, 0, 0, 0, 0, 0, 0, 0, 0];
    }
    let side = u64::from(e.client);
    let padding = u64::from(e.padding);
    let bypass = u64::from(e.bypass);
    let replace = u64::from(e.replace);
    [
        1, rounds, e.kind.0, e.moment.0, e.delay.0, side, padding, bypass, replace, e.machine,
    ]
}

// The ten words of a choice.
// A match within a match: as one pattern each case takes six lines.
pub fn choice_words(a: Choice) -> [u64; 10]
    ensures { result ≡ choice_words (choice_of a) }
{
    match a {
        Ok(c) => match c.event {
            Some(e) => event_words(e, c.rounds),
            None => [0, c.rounds, 0, 0, 0, 0, 0, 0, 0, 0],
        },
        Err(r) => [0, r.rounds, 0, 0, 0, 0, 0, 0, 0, 0],
    }
}

// The three words of a network step.
pub fn step_words(a: Step) -> [u64; 3]
    ensures { result ≡ step_words (step_of a) }
{
    let Ok(m) = a else {
        return [0, 0, 0];
    };
    let active = u64::from(m.active);
    match m.falls {
        None => [active, 0, 0],
        Some(t) => [active, 1, t.0],
    }
}

// The words go into a place of their length; any other place is left as it was.
pub fn write(out: &mut [u64], words: &[u64])
    ensures { out.new ≡ out_left words.now out.old }
{
    if out.len() != words.len() {
        return;
    }
    out.copy_from_slice(words);
}
