// The label kinds that a history can be opened with, by their words.
ghost use Rattle.std.specs.Prelude.{◌≡◌, ◌≢◌, IfOk, MatchResult, Some};
ghost use Rattle.protocol.specs.Words.{kind_text, kind_word};

use crate::base_kind::BaseKind;
use crate::malformed::Malformed;
use std::fmt;
use std::str::FromStr;

impl FromStr for BaseKind {
    type Err = Malformed;

    ghost use Rattle.protocol.specs.declared.base_kind.BaseKind.{BaseKind};

    ghost from_str_gives = { λ word r. MatchResult r (λ k. word ≡ kind_word k) (λ _. (k : BaseKind) → word ≢ kind_word k) };

    fn from_str(word: &str) -> Result<BaseKind, Malformed> {
        match word {
            "blank" => Ok(BaseKind::Blank),
            "level" => Ok(BaseKind::Level),
            "byte-level" => Ok(BaseKind::ByteLevel),
            "corrected-date" => Ok(BaseKind::CorrectedDate),
            "interval" => Ok(BaseKind::Interval),
            _ => Err(Malformed),
        }
    }
}

impl fmt::Display for BaseKind {
    ghost output = { λ k. Some (kind_word k) };

    fn fmt<W: fmt::Write>(&self, f: &mut fmt::Formatter<W>) -> fmt::Result {
        f.write_str(match *self {
            BaseKind::Blank => "blank",
            BaseKind::Level => "level",
            BaseKind::ByteLevel => "byte-level",
            BaseKind::CorrectedDate => "corrected-date",
            BaseKind::Interval => "interval",
        })
    }
}

// One kind, or two side by side, written with a + between their words.
#[derive(Clone, Copy)]
pub enum Kind {
    One(BaseKind),
    Two(BaseKind, BaseKind),
}

impl FromStr for Kind {
    type Err = Malformed;

    ghost from_str_gives = { λ text r. IfOk r (λ k. text ≡ kind_text k) };

    fn from_str(word: &str) -> Result<Kind, Malformed> {
        match word.split_once('+') {
            Some((first, second)) => Ok(Kind::Two(first.parse()?, second.parse()?)),
            None => Ok(Kind::One(word.parse()?)),
        }
    }
}

impl fmt::Display for Kind {
    ghost output = { λ k. Some (kind_text k) };

    fn fmt<W: fmt::Write>(&self, f: &mut fmt::Formatter<W>) -> fmt::Result {
        match *self {
            Kind::One(kind) => write!(f, "{kind}"),
            Kind::Two(first, second) => write!(f, "{first}+{second}"),
        }
    }
}
