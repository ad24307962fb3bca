// What is left of the answers of one output.
ghost use Rattle.std.specs.Prelude.{◌≡◌, IfOk, [], IsTrue, ◌↔◌};
ghost use Rattle.script_link.specs.Answers.{first_answers, is_end as is_end_of, left_behind, next_of};

use basics::{Copies, NoMemory, Sequence};
use outside::Polled;
use std::alloc::Global;
use std::collections::VecDeque;
use std::marker::Model;

/// The answers that are left, and whether the last one that was given was an end.
#[derive(Drop)]
pub struct AnswerQueue {
    left: VecDeque<Polled>,
    ended: bool,
}

impl Model for AnswerQueue {
    ghost use Rattle.script_link.specs.Answers.{Answers};

    ghost Value = { Answers };

    ghost view = { λ queue. record { left = queue.left.items; ended = queue.ended } };
}

// Whether an answer is an end.
fn is_end(answer: &Polled) -> bool
    ensures { result ≡ is_end_of answer.now }
{
    matches!(answer, Polled::End)
}

impl AnswerQueue {
    /// These answers, of which none was given yet.
    pub fn new(answers: Sequence<Polled>) -> Self
        ensures { result ≡ first_answers answers }
    {
        AnswerQueue {
            left: VecDeque::from_vec(answers.into_vec()),
            ended: false,
        }
    }

    /// Whether all of them were given.
    pub fn is_over(&self) -> bool
        ensures { IsTrue result ↔ (self.now.left ≡ []) }
    {
        self.left.is_empty()
    }

    /// A copy of the next answer.
    pub fn next(&self, alloc: Global) -> Result<Polled, NoMemory>
        ensures { IfOk result (λ answer. answer ≡ next_of self.now) }
    {
        match self.left.front() {
            Some(answer) => answer.copy(alloc),
            None => Ok(self.at_end()),
        }
    }

    // What is answered behind all of them.
    fn at_end(&self) -> Polled
        requires { self.now.left ≡ [] }
        ensures { result ≡ next_of self.now }
    {
        if self.ended {
            Polled::End
        } else {
            Polled::NotYet
        }
    }

    /// Gives the next answer.
    pub fn take(&mut self) -> Polled
        ensures given { result ≡ next_of self.old }
        ensures left { self.new ≡ left_behind self.old }
    {
        match self.left.pop_front() {
            Some(answer) => {
                self.ended = is_end(&answer);
                answer
            }
            None => self.at_end(),
        }
    }
}
