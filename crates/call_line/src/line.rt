// A line, byte by byte: of its first word the letters are kept, of each argument what it is and its number.
ghost use Rattle.std.specs.Prelude.{◌≡◌, true, false, [], ◌∷◌, take};
ghost use Rattle.call_words.specs.Asked.{asked_or_bad, understood as understood_as};
ghost use Rattle.call_line.specs.Numerals.{is_digit, form_of, value_of};
ghost use Rattle.call_line.specs.Words.{is_space};
ghost use Rattle.call_line.specs.Lines.{asks_of_line};
ghost use Rattle.call_line.specs.declared.line.Place.TheVariants.{Arguments};
ghost use Rattle.call_line.specs.Held.{digit_of, Holds, Reads, ReadsDigit, AsksFor, start_line};
ghost use Rattle.call_line.specs.Steps.{longer_of, spoilt_of, Joins, LateDigit, Ends, place_after, Spells, place_parted, PastCR, AtCR, WithoutCR, Parts, Takes, passes_over};

use call_words::asked;
use call_words::asked::{Asked, BadLine};
use call_words::shapes::{Argument, Form};

// Where in the line we are: at or before its first word, after it, in a comment; and the first two after a CR, which
// belongs to a word unless the line ends there.
#[derive(Clone, Copy, PartialEq, Eq)]
pub enum Place {
    FirstWord,
    Arguments,
    Comment,
    FirstWordCr,
    ArgumentsCr,
}

// The letters of a first word that are kept, and the arguments.
const LETTERS: usize = 24;

const ARGUMENTS: usize = 12;

// What is known of the line so far. It is changed in place: with copies of the whole a list was read in three times the time.
#[derive(Clone, Copy)]
pub struct Line {
    pub place: Place,
    // letters of the first word, one more than are kept where it is longer
    // (a count that stops there: an Option of it would be taken apart at every byte)
    pub letters: usize,
    // arguments that have ended, one more than are kept where there are more
    pub arguments: usize,
    // the argument under way
    pub form: Form,
    pub number: u64,
}

// The words of the line that are kept: as many letters and arguments as `Line` counts, which alone changes at most bytes. No heap: arrays of a fixed size.
#[derive(Clone, Copy)]
pub struct Words {
    pub name: [u8; 24],
    pub arguments: [Argument; 12],
}

impl Words {
    // No word yet.
    #[tactic(auto, using(crate::proofs::ReadLaws::holds_start))]
    pub fn new() -> Self
        ensures { Holds [] start_line result.name result.arguments }
    {
        let argument = Argument {
            form: Form::NoWord,
            value: 0,
        };
        Self {
            name: [0; 24],
            arguments: [argument; 12],
        }
    }
}

// The number with one digit more; none above 2^64 - 1.
fn longer(number: u64, digit: u64) -> Option<u64>
    ensures { result ≡ longer_of number digit }
{
    number.checked_mul(10)?.checked_add(digit)
}

fn is_digit(b: u8) -> bool
    ensures { result ≡ is_digit b }
{
    b.is_ascii_digit()
}

fn is_space(b: u8) -> bool
    ensures { result ≡ is_space b }
{
    matches!(b, b' ' | b'\t')
}

// What a word of one byte is.
#[tactic(auto, using(crate::proofs::OneByteLaws::form_absent, crate::proofs::OneByteLaws::form_flag, crate::proofs::OneByteLaws::form_digit, crate::proofs::OneByteLaws::form_side_client, crate::proofs::OneByteLaws::form_side_server, crate::proofs::OneByteLaws::form_low, crate::proofs::OneByteLaws::form_high))]
fn first_form(b: u8) -> Form
    ensures { result ≡ form_of (b ∷ []) }
{
    match b {
        b'-' => Form::Absent,
        b'0' | b'1' => Form::Flag,
        b'2'..=b'9' => Form::Number,
        b'c' | b's' => Form::Side,
        _ => Form::Other,
    }
}

// The number of a word of one byte: a digit's, 1 for the client.
#[tactic(auto, using(crate::proofs::OneByteLaws::value_client, crate::proofs::OneByteLaws::value_low, crate::proofs::OneByteLaws::value_high, crate::proofs::OneByteLaws::value_digit))]
fn first_number(b: u8) -> u64
    ensures { result ≡ value_of (b ∷ []) }
{
    match b {
        b'0'..=b'9' => u64::from(b - b'0'),
        b'c' => 1,
        _ => 0,
    }
}

fn place_after(at: usize, b: u8) -> Place
    ensures { result ≡ place_after at b }
{
    if at == 0 && b == b'#' {
        return Place::Comment;
    }
    Place::FirstWord
}

// After a space that follows so many letters.
fn place_parted(letters: usize) -> Place
    ensures { result ≡ place_parted letters }
{
    if letters == 0 {
        return Place::FirstWord;
    }
    Place::Arguments
}

impl Line {
    // At the start of a line.
    pub fn start() -> Self
        ensures { result ≡ start_line }
    {
        Self {
            place: Place::FirstWord,
            letters: 0,
            arguments: 0,
            form: Form::NoWord,
            number: 0,
        }
    }

    // The word under way can be no argument.
    fn spoil(&mut self)
        ensures { self.new ≡ spoilt_of self.old }
    {
        self.form = Form::Other;
        self.number = 0; // of no number
    }

    // A CR that no line's end follows belongs to a word, which is then neither a call nor an argument.
    fn past_cr(&mut self)
        ensures { PastCR self.old self.new }
    {
        match self.place {
            Place::ArgumentsCr => {
                self.place = Place::Arguments;
                self.spoil();
            },
            Place::FirstWordCr => {
                self.place = Place::FirstWord;
                self.letters = LETTERS + 1;
            },
            _ => {},
        }
    }

    // A CR, after past_cr.
    fn at_cr(&mut self)
        ensures { AtCR self.old self.new }
    {
        match self.place {
            Place::Arguments => self.place = Place::ArgumentsCr,
            _ => self.place = Place::FirstWordCr,
        }
    }

    // The end of the line: a CR before it is passed over.
    // By `if let`, here and below: with `==` the fact is of the derived `eq`, and goals stayed open in six functions.
    fn without_cr(&mut self)
        ensures { WithoutCR self.old self.new }
    {
        if let Place::ArgumentsCr = self.place {
            self.place = Place::Arguments;
        }
    }

    // A digit in an argument.
    fn add_digit(&mut self, b: u8)
        requires { is_digit b ≡ true }
        ensures { Joins self.old b self.new }
    {
        if let Form::NoWord = self.form {
            self.form = first_form(b);
            self.number = first_number(b);
            return;
        }
        if !self.form.numeric() {
            return self.spoil();
        }
        let Some(n) = longer(self.number, first_number(b)) else {
            return self.spoil();
        };
        self.number = n;
        self.form = Form::Number;
    }

    // A byte in an argument; a digit only after a CR, where the word is spoilt already.
    fn add_byte(&mut self, b: u8)
        requires { LateDigit self.old b }
        ensures { Joins self.old b self.new }
    {
        let Form::NoWord = self.form else {
            return self.spoil();
        };
        self.form = first_form(b);
        self.number = first_number(b);
    }

    // One byte more of the first word. A line whose first word begins with `#` is passed over.
    fn add_letter(&mut self, b: u8, words: &mut Words)
        ensures spells { Spells self.old b words.old.name self.new words.new.name }
        ensures arguments { words.new.arguments ≡ words.old.arguments }
    {
        let at = self.letters;
        if at >= LETTERS {
            self.letters = LETTERS + 1; // and no further
            return;
        }
        words.name[at] = b;
        self.letters = at + 1;
        self.place = place_after(at, b);
    }

    // An argument ends here.
    fn end_argument(&mut self, words: &mut Words)
        ensures ends { Ends self.old words.old.arguments self.new words.new.arguments }
        ensures name { words.new.name ≡ words.old.name }
    {
        let at = self.arguments;
        let argument = Argument {
            form: self.form,
            value: self.number,
        };
        self.form = Form::NoWord;
        self.number = 0; // of no word
        if at >= ARGUMENTS {
            self.arguments = ARGUMENTS + 1;
            return;
        }
        words.arguments[at] = argument;
        self.arguments = at + 1;
    }

    // A space or the end of the line: the word under way ends, if there is one.
    fn part(&mut self, words: &mut Words)
        ensures parts { Parts self.old words.old.arguments self.new words.new.arguments }
        ensures name { words.new.name ≡ words.old.name }
    {
        let Place::Arguments = self.place else {
            self.place = place_parted(self.letters);
            return;
        };
        match self.form {
            Form::NoWord => {},
            _ => self.end_argument(words),
        }
    }

    // A byte that is no CR and ends no line.
    fn take(&mut self, b: u8, words: &mut Words)
        requires { self.old.place ≡ Arguments → LateDigit self.old b }
        ensures { Takes self.old words.old.name words.old.arguments b self.new words.new.name words.new.arguments }
    {
        if is_space(b) {
            return self.part(words);
        }
        if let Place::Arguments = self.place {
            return self.add_byte(b);
        }
        self.add_letter(b, words);
    }

    // A byte that ends no line, unless it is a digit in an argument.
    fn feed(&mut self, b: u8, words: &mut Words)
        requires { self.old.place ≡ Arguments → is_digit b ≡ false }
        ensures { Reads self.old words.old.name words.old.arguments b self.new words.new.name words.new.arguments }
    {
        if let Place::Comment = self.place {
            return;
        }
        self.past_cr();
        if b == b'\r' {
            return self.at_cr();
        }
        self.take(b, words);
    }

    // Whether the byte is a digit in an argument, as most bytes are.
    pub fn is_digit(self, b: u8) -> bool
        ensures { result ≡ digit_of self b }
    {
        self.place == Place::Arguments && is_digit(b)
    }

    // Such a digit more. It is `read` without what it could else do.
    pub fn read_digit(&mut self, b: u8)
        requires { digit_of self.old b ≡ true }
        ensures { ReadsDigit self.old b self.new }
    {
        self.add_digit(b);
    }

    // One byte more, which does not end the line.
    pub fn read(&mut self, b: u8, words: &mut Words)
        ensures { Reads self.old words.old.name words.old.arguments b self.new words.new.name words.new.arguments }
    {
        if self.is_digit(b) {
            return self.read_digit(b);
        }
        self.feed(b, words);
    }

    // Whether the line is empty or a comment.
    fn passed_over(self) -> bool
        ensures { result ≡ passes_over self }
    {
        self.place == Place::Comment || self.letters == 0
    }

    // What the words ask for. No line has a first word or so many arguments as are cut short here.
    #[tactic(auto, using(crate::proofs::AskedLaws::take_cut))]
    fn understood(self, words: &Words) -> Result<Asked, BadLine>
        ensures { asked_or_bad result ≡ understood_as (take self.letters words.now.name) (take self.arguments words.now.arguments) }
    {
        let letters = &words.name[..self.letters.min(LETTERS)];
        let arguments = &words.arguments[..self.arguments.min(ARGUMENTS)];
        asked::understood(letters, arguments)
    }

    // What the line asks for that ends here, if it is not passed over.
    pub fn asked(self, words: &mut Words) -> Result<Option<Asked>, BadLine>
        ensures asks { AsksFor self words.old.name words.old.arguments (asks_of_line result) words.new.name words.new.arguments }
        ensures name { words.new.name ≡ words.old.name }
    {
        if self.passed_over() {
            return Ok(None);
        }
        let mut t = self;
        t.without_cr();
        t.part(words);
        Ok(Some(t.understood(words)?))
    }
}
