//! What a line may have wrong that is no step's, and the words in which it is said.
use std::fmt;

/// What a part of a line has to be, which it is not.
#[derive(Clone, Copy, Debug, PartialEq, Eq)]
pub enum Wanted {
    /// A number.
    Number,
    /// A number without a sign.
    Unsigned,
    /// A number without a zero in front.
    NoZero,
    /// A number from the first to the second.
    Between(u64, u64),
    /// A name.
    Name,
    /// One of these words.
    OneOf(&'static str),
    /// Something that has this part too.
    With(&'static str),
    /// Something that did not stand before.
    Once,
}

impl fmt::Display for Wanted {
    ghost use Rattle.std.specs.Prelude.{Some};
    ghost use Rattle.sim_scenario.specs.FlawTexts.{wanted_text};

    ghost output = { λ w. Some (wanted_text w) };

    fn fmt<W: fmt::Write>(&self, f: &mut fmt::Formatter<W>) -> fmt::Result {
        match self {
            Wanted::Number => write!(f, "is no number"),
            Wanted::Unsigned => write!(f, "has a sign"),
            Wanted::NoZero => write!(f, "has a zero in front"),
            Wanted::Between(low, high) => write!(f, "is not from {low} to {high}"),
            Wanted::Name => write!(f, "is not 1 to 32 of a-z0-9-"),
            Wanted::OneOf(words) => write!(f, "is not {words}"),
            Wanted::With(part) => write!(f, "lacks its {part}"),
            Wanted::Once => write!(f, "stands twice"),
        }
    }
}

/// A part of a line that is not what has to stand there.
#[derive(Debug, Drop, PartialEq, Eq)]
pub struct WrongPart {
    /// What has to stand there.
    pub name: &'static str,
    /// What stands there.
    pub text: String,
    /// What it has to be.
    pub wanted: Wanted,
}

impl fmt::Display for WrongPart {
    ghost use Rattle.std.specs.Prelude.{Some};
    ghost use Rattle.sim_scenario.specs.FlawTexts.{wrong_part_text};

    ghost output = { λ p. Some (wrong_part_text p) };

    fn fmt<W: fmt::Write>(&self, f: &mut fmt::Formatter<W>) -> fmt::Result {
        let (name, text, wanted) = (self.name, self.text.as_str(), self.wanted);
        write!(f, "the {name} \"{text}\" {wanted}")
    }
}

/// The first thing that is wrong with a line that is no step's.
#[derive(Debug, Drop, PartialEq, Eq)]
pub enum Flaw {
    /// There is nothing in it.
    Empty,
    /// In this column, counted from 1, it has a character that no step has.
    Character(usize),
    /// In this column, counted from 1, it has a space too many.
    Space(usize),
    /// No step begins with this word.
    NoStep(String),
    /// No step begins with the first word; the second may be meant.
    Meant(String, &'static str),
    /// It ends where this has to come.
    Missing(&'static str),
    /// It goes on with this behind the last word of the step.
    TooMuch(String),
    /// The group has so many of these, and none with this number.
    Absent(&'static str, String, usize),
    /// This part of it is not what it has to be.
    Word(WrongPart),
    /// In this word, which the name is of, this part is not what it has to be.
    Within(&'static str, String, WrongPart),
    /// It has more of these than this.
    TooMany(&'static str, usize),
    /// It is no step's, and nothing more is known.
    Unknown,
}

impl fmt::Display for Flaw {
    ghost use Rattle.std.specs.Prelude.{Some};
    ghost use Rattle.sim_scenario.specs.FlawTexts.{flaw_text};

    ghost output = { λ f. Some (flaw_text f) };

    fn fmt<W: fmt::Write>(&self, f: &mut fmt::Formatter<W>) -> fmt::Result {
        match self {
            Flaw::Empty => write!(f, "it is empty"),
            Flaw::Character(column) => { write!(f, "no step has the character in column {column}") }
            Flaw::Space(column) => write!(f, "the space in column {column} is one too many"),
            Flaw::NoStep(word) => {
                write!(
                    f,
                    "no step begins with \"{word}\"; 'nomadsim run --help' has all"
                )
            }
            Flaw::Meant(word, verb) => {
                write!(f, "no step begins with \"{word}\"; {verb} may be meant")
            }
            Flaw::Missing(name) => write!(f, "the {name} is missing"),
            Flaw::TooMuch(text) => write!(f, "\"{text}\" is too much"),
            Flaw::Absent(name, number, count) => {
                write!(f, "there is no {name} {number} of {count}")
            }
            Flaw::Word(part) => write!(f, "{part}"),
            Flaw::Within(name, whole, part) => write!(f, "in the {name} \"{whole}\" {part}"),
            Flaw::TooMany(names, most) => write!(f, "there are more than {most} {names}"),
            Flaw::Unknown => write!(f, "it is no step"),
        }
    }
}
