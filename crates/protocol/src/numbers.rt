// Numbers in decimal digits alone, with no sign.
ghost use Rattle.std.specs.Prelude.{◌^◌, ◌<◌, ◌≤◌};
ghost use Rattle.std.specs.Option.{SomeIff};
ghost use Rattle.std.specs.Str.Parse.{IsNumeral, digits_value};

use crate::limits::LONGEST_TABLE;

pub fn number(word: &str) -> Option<u64>
    ensures { SomeIff result (IsNumeral 10 word.now × (digits_value 10 word.now < 2 ^ 64)) (digits_value 10 word.now) }
{
    if let [b'+', ..] = word.as_bytes() {
        return None;
    }
    word.parse::<u64>().ok()
}

pub fn short_number(word: &str) -> Option<u32>
    ensures { SomeIff result (IsNumeral 10 word.now × (digits_value 10 word.now < 2 ^ 32)) (digits_value 10 word.now) }
{
    u32::try_from(number(word)?).ok()
}

pub fn table_length(word: &str) -> Option<usize>
    ensures { SomeIff result (IsNumeral 10 word.now × (digits_value 10 word.now ≤ 1000000)) (digits_value 10 word.now) }
{
    let length = short_number(word)? as usize;
    Some(length).filter(|n| *n <= LONGEST_TABLE)
}
