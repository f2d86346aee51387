// Which arguments a line has.
ghost use Rattle.std.specs.Prelude.{◌≡◌, ℕ};
ghost use Rattle.std.specs.List.{list_all, zip};
ghost use Rattle.call_words.specs.Shapes.{numeric as is_numeric, stands as can_stand, fits, shape_of};

use crate::names::Name;

// What an argument is: 0 or 1, which serve as flags too; another number; `c` or `s`; `-`; none of these. No word is what stands before its first byte.
#[derive(Clone, Copy, PartialEq, Eq)]
pub enum Form {
    NoWord,
    Flag,
    Number,
    Side,
    Absent,
    Other,
}

// An argument: a number's value, 1 for the client, else 0.
// Form and value stand side by side: what may stand where is asked of the form alone, and most forms have no value.
#[derive(Clone, Copy, PartialEq, Eq)]
pub struct Argument {
    pub form: Form,
    pub value: u64,
}

impl Form {
    // Whether an argument of this form is a number.
    pub fn numeric(self) -> bool
        ensures { result ≡ is_numeric self }
    {
        matches!(self, Form::Flag | Form::Number)
    }

    // Whether a word of this form can stand where the shape has this letter: n number, f flag, s side, else rate.
    #[tactic(auto, unfolding(crate::specs::Shapes::stands))]
    fn stands(self, letter: u8) -> bool
        ensures { result ≡ can_stand self letter }
    {
        match letter {
            b'n' => self.numeric(),
            b'f' => self == Form::Flag,
            b's' => self == Form::Side,
            _ => self == Form::Absent || self.numeric(),
        }
    }
}

// Whether each argument is of the form of the shape's letter in its place.
fn each_stands(arguments: &[Argument], shape: &[u8]) -> bool
    ensures { result ≡ list_all (λ (p : Argument × ℕ). can_stand p.0.form p.1) (zip arguments.now shape.now) }
{
    arguments
        .iter()
        .zip(shape)
        .all(|(argument, letter)| argument.form.stands(*letter))
}

// Whether there are as many arguments as the shape has letters, each of its form.
#[tactic(auto, using(crate::proofs::PairLaws::fits_all, crate::proofs::PairLaws::fits_other))]
fn shaped(arguments: &[Argument], shape: &[u8]) -> bool
    ensures { result ≡ fits arguments.now shape.now }
{
    arguments.len() == shape.len() && each_stands(arguments, shape)
}

// Whether these are arguments of the line.
// One letter stands for each argument, so that a shape fits into its arm: as values of an enum each would be a list of names.
pub(crate) fn arguments_fit(name: Name, arguments: &[Argument]) -> bool
    ensures { result ≡ fits arguments.now (shape_of name) }
{
    match name {
        Name::Lend(_) => shaped(arguments, b"n"),
        Name::Word(_) => shaped(arguments, b"nn"),
        Name::Open => shaped(arguments, b"nrrnnnnnnn"),
        Name::Push => shaped(arguments, b"nnnsfffn"),
        Name::SetAction => shaped(arguments, b"snnnnff"),
        Name::ClearAction => shaped(arguments, b"sn"),
        Name::SetTimer => shaped(arguments, b"snn"),
        Name::ClearTimer => shaped(arguments, b"sn"),
        Name::PickNext => shaped(arguments, b"n"),
        Name::SimNetworkStack => shaped(arguments, b"nnnnsfffn"),
        Name::Show | Name::Words(_) | Name::TakeSecond | Name::Pack => shaped(arguments, b""),
    }
}
