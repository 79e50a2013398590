// The words of a call: none, or a house and a label.
use refusal::Side;
use std::env;
use thiserror::Error;

#[derive(Clone, Copy, PartialEq, Eq, Debug)]
pub(crate) enum Question {
    Every,
    One { side: Side, label: u64 },
}

// What is wrong with a call.
#[derive(Clone, Copy, PartialEq, Eq, Debug, Error)]
pub(crate) enum WrongCall {
    #[error("HOUSE without a LABEL")]
    NoLabel,
    #[error("HOUSE is neither near nor far")]
    UnknownHouse,
    #[error("LABEL is no number")]
    NoNumber,
    #[error("more words than HOUSE and LABEL")]
    MoreWords,
    #[error("the house has no such LABEL")]
    UnknownLabel,
}

// Tells how to call the program before the error is told.
pub(crate) fn with_usage(rt: &HostRuntime, wrong: WrongCall) -> anyhow::Error {
    let _ = eprintln!(rt; "usage: view [HOUSE LABEL] < SHEET, where HOUSE is near or far");
    wrong.into()
}

// What a house and a label ask; `more` is the word after them, if there is one.
fn question_of(house: &str, label: &str, more: Option<&str>) -> Result<Question, WrongCall> {
    let side = house.parse().map_err(|_| WrongCall::UnknownHouse)?;
    let label = label.parse().map_err(|_| WrongCall::NoNumber)?;
    match more {
        Some(_) => Err(WrongCall::MoreWords),
        None => Ok(Question::One { side, label }),
    }
}

pub(crate) fn asked_question(rt: &HostRuntime) -> anyhow::Result<Question> {
    let mut words = env::args(rt)?;
    let _program = words.next();
    let Some(house) = words.next() else {
        return Ok(Question::Every);
    };
    let Some(label) = words.next() else {
        return Err(with_usage(rt, WrongCall::NoLabel));
    };
    let more = words.next();
    question_of(
        house.as_str(),
        label.as_str(),
        more.as_ref().map(|word| word.as_str()),
    )
    .map_err(|wrong| with_usage(rt, wrong))
}

#[cfg(test)]
mod tests {
    use super::*;

    #[test]
    fn words(rt: HostRuntime) {
        assert_eq!(rt;
            question_of("near", "1", None),
            Ok(Question::One {
                side: Side::Near,
                label: 1,
            })
        );
        assert_eq!(rt;
            question_of("far", "0", None),
            Ok(Question::One {
                side: Side::Far,
                label: 0,
            })
        );
        assert_eq!(rt;
            question_of("north", "1", None),
            Err(WrongCall::UnknownHouse)
        );
        assert_eq!(rt; question_of("near", "one", None), Err(WrongCall::NoNumber));
        assert_eq!(rt;
            question_of("near", "1", Some("2")),
            Err(WrongCall::MoreWords)
        );
    }

    // The words of the errors, as they are told.
    #[test]
    fn texts(rt: HostRuntime) -> Result<(), std::test::Fail> {
        let house = format!(in rt.alloc(); "{}", WrongCall::UnknownHouse)?;
        assert_eq!(rt; house.as_str(), "HOUSE is neither near nor far");
        let label = format!(in rt.alloc(); "{}", WrongCall::NoNumber)?;
        assert_eq!(rt; label.as_str(), "LABEL is no number");
        let more = format!(in rt.alloc(); "{}", WrongCall::MoreWords)?;
        assert_eq!(rt; more.as_str(), "more words than HOUSE and LABEL");
        Ok(())
    }
}
