// Outcomes by what they say: a pass, a refusal, done. Defined in crates/kinds/specs/Outcome.antt.
#![tactic(auto)]

ghost use Rattle.std.specs.Prelude.{◌≡◌};
ghost use Rattle.kinds.specs.Answer.{refuse};
ghost use Rattle.kinds.specs.declared.outcome.Check.TheVariants.{Kept};
ghost use Rattle.kinds.specs.Outcome as spec;

use kinds::answer::{Answer, Reason};
use kinds::number::{ByteAddress, NO_WORD, PeNumber};
use kinds::outcome::{Check, Effect, ErrorRecord, Outcome};

/// A pass, that changes nothing: `address` is where the bytes are, `words` the count of table words read.
pub fn passed(pe: PeNumber, address: ByteAddress, words: u64) -> Outcome
    ensures { result ≡ spec.passed pe address words }
{
    Outcome {
        answer: Answer::Pass { address, pe, words },
        effect: Effect::Keep,
    }
}

/// The answer of a refusal with no table word read, and none that failed.
pub fn refusal(reason: Reason) -> Answer
    ensures { result ≡ refuse reason }
{
    Answer::Refuse {
        reason,
        words: 0,
        word: NO_WORD,
    }
}

/// A refusal with no table word read, that changes nothing.
pub fn refused(reason: Reason) -> Outcome
    ensures { result ≡ spec.refused reason }
{
    Outcome {
        answer: refusal(reason),
        effect: Effect::Keep,
    }
}

/// A refusal that freezes the PE, alone: `address` is that of the request, `words` the count of table words read, `word` the address of the one that failed.
pub fn failed(reason: Reason, address: ByteAddress, words: u64, word: ByteAddress) -> Outcome
    ensures { result ≡ spec.failed reason address words word }
{
    let error = ErrorRecord {
        reason,
        value: address.0,
        word,
    };
    Outcome {
        answer: Answer::Refuse {
            reason,
            words,
            word,
        },
        effect: Effect::Freeze {
            error,
            peers: false,
        },
    }
}

/// Done, with an effect.
pub fn done(effect: Effect) -> Outcome
    ensures { result ≡ spec.done effect }
{
    Outcome {
        answer: Answer::Done,
        effect,
    }
}

/// A request that is refused with no table word read.
pub fn refuse(reason: Reason) -> Check
    ensures { result ≡ Kept (refuse reason) }
{
    Check::Kept(refusal(reason))
}

/// What is known of a request, or the refusal in its place.
pub fn settled(found: Result<Check, Reason>) -> Check
    ensures { result ≡ spec.settled found }
{
    found.unwrap_or_else(refuse)
}
