// An answer as two numbers, for C. No enum crosses to C, so a struct of numbers stands for an answer.
#![tactic(auto)]

ghost use Rattle.std.specs.Prelude.{◌≡◌};
ghost use Rattle.refusal.specs.Answers.{refusal_answer, counted_answer, matched_answer};
ghost use Rattle.answers_c.specs.Answers.{c_answer};

use refusal::Refusal;

// The number of the refusal, 0 where there is none; and the count, 1 for yes and 0 for no, or the refusal's place.
#[repr(C)]
#[derive(Clone, Copy)]
pub struct Answer {
    pub refusal: u32,
    pub value: usize,
}

// A refusal by its number and its place.
impl From<Refusal> for Answer {
    ghost from_gives = { λ refusal answer. answer ≡ c_answer (refusal_answer refusal) };

    #[tactic(auto, unfolding(crate::specs::Answers::c_answer, refusal::specs::Answers::refusal_answer))]
    fn from(refusal: Refusal) -> Answer {
        Answer {
            refusal: u32::from(refusal.reason),
            value: refusal.place,
        }
    }
}

// The answer of an operation that counts.
impl From<Result<usize, Refusal>> for Answer {
    ghost from_gives = { λ counted answer. answer ≡ c_answer (counted_answer counted) };

    #[tactic(auto, unfolding(crate::specs::Answers::c_answer, refusal::specs::Answers::counted_answer))]
    fn from(counted: Result<usize, Refusal>) -> Answer {
        match counted {
            Ok(count) => Answer {
                refusal: 0,
                value: count,
            },
            Err(refusal) => Answer::from(refusal),
        }
    }
}

// The answer of an operation that says yes or no.
impl From<Result<bool, Refusal>> for Answer {
    ghost from_gives = { λ matched answer. answer ≡ c_answer (matched_answer matched) };

    #[tactic(auto, unfolding(crate::specs::Answers::c_answer, refusal::specs::Answers::matched_answer))]
    fn from(matched: Result<bool, Refusal>) -> Answer {
        match matched {
            Ok(yes) => Answer {
                refusal: 0,
                value: usize::from(yes),
            },
            Err(refusal) => Answer::from(refusal),
        }
    }
}

// The answer of an operation that makes or reads a number of 32 bits.
impl From<Result<u32, Refusal>> for Answer {
    ghost from_gives = { λ numbered answer. answer ≡ c_answer (counted_answer numbered) };

    #[tactic(auto, unfolding(crate::specs::Answers::c_answer, refusal::specs::Answers::counted_answer))]
    fn from(numbered: Result<u32, Refusal>) -> Answer {
        match numbered {
            Ok(number) => Answer {
                refusal: 0,
                value: number as usize,
            },
            Err(refusal) => Answer::from(refusal),
        }
    }
}
