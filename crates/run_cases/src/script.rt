// The steps of a script. A number that is missing or ill-formed is 0, and a value that is none is absent.
use machine::answers::{Given, Intent};
use marks::value::Value;
use std::fmt;
use std::str::FromStr;

// A call that neither opens nor closes a tick.
#[derive(Drop)]
pub(crate) enum Call<V> {
    Supply(usize, Given<V>),
    Fire(usize),
    Settle,
    Read(usize),
}

#[derive(Drop)]
pub(crate) enum Step<V> {
    Begin,
    Call(Call<V>),
    Close(Intent),
    // as many ticks begun and dropped
    Pass(usize),
}

// Words that are no step, or no script.
#[derive(Clone, Copy)]
pub(crate) struct IllFormed;

impl fmt::Display for IllFormed {
    fn fmt<W: fmt::Write>(&self, f: &mut fmt::Formatter<W>) -> fmt::Result {
        f.write_str("ill-formed")
    }
}

// A number; one that is missing or ill-formed is 0.
pub(crate) fn read_number<N: FromStr + Default>(word: Option<&str>) -> N
where
    N::Err: Drop,
{
    word.and_then(|word| word.parse().ok()).unwrap_or_default()
}

// To keep; any other word is to drop.
pub(crate) fn read_intent(word: &str) -> Intent {
    match word {
        "keep" => Intent::Keep,
        _ => Intent::Drop,
    }
}

// A value; any other word, as `.`, is absent.
fn read_given<V: Value>(word: &str) -> Given<V> {
    match word.parse() {
        Ok(number) => V::of(number).map_or(Given::Absent, Given::Present),
        Err(_) => Given::Absent,
    }
}

impl<V: Value> FromStr for Step<V> {
    type Err = IllFormed;

    fn from_str(text: &str) -> Result<Step<V>, IllFormed> {
        let mut words = text.split(' ');
        let verb = words.next().unwrap_or("");
        let number = read_number(words.next());
        match verb {
            "begin" => Ok(Step::Begin),
            "supply" => {
                let given = read_given(words.next().unwrap_or(""));
                Ok(Step::Call(Call::Supply(number, given)))
            }
            "fire" => Ok(Step::Call(Call::Fire(number))),
            "settle" => Ok(Step::Call(Call::Settle)),
            "read" => Ok(Step::Call(Call::Read(number))),
            "ticks" => Ok(Step::Pass(number)),
            "keep" | "drop" => Ok(Step::Close(read_intent(verb))),
            _ => Err(IllFormed),
        }
    }
}
