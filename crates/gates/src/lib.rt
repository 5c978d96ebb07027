// Questions 1 to 10 and 1 to 12 of a file, 18 and 19 in their places among them and 11 not, with what the calls go on from. They need
// no buffer: a call asks its own last questions after them, before anything is stored.
#![tactic(auto)]

ghost use Rattle.std.specs.Prelude.{◌≡◌, [], ◌∷◌, leb};
ghost use Rattle.plan.specs.Questions.{ask, first_no, loss_questions};
ghost use Rattle.group.specs.Refusals.{verdict_is};
ghost use Rattle.groupfile.specs.Opening.{OpenedIs};
ghost use Rattle.gates.specs.Gates.{RatingOpenedIs};

use group::Refusal;
use groupfile::opening::{Opened, open};
use steps::balance::balance;
use steps::bill::Terms;

// Question 10 of a group's limited losses.
fn losses_verdict(limited: u64) -> Result<(), Refusal>
    ensures { verdict_is result ≡ first_no (ask 10 (leb 1 limited) ∷ []) }
{
    if limited < 1 {
        return Err(Refusal::NoLosses);
    }
    Ok(())
}

// Questions 1 to 10.
pub fn open_losses(file: &[u8]) -> Opened<()>
    ensures { OpenedIs (loss_questions file.now) file.now result }
{
    let opened = open(file);
    Opened {
        verdict: opened.verdict.and(losses_verdict(opened.losses.limited)),
        ..opened
    }
}

// Questions 1 to 12, and where they pass the terms of the file's group. The verdict's type changes, so each field is named.
pub fn open_rating(file: &[u8]) -> Opened<Terms>
    ensures { RatingOpenedIs file.now result }
{
    let Opened {
        verdict,
        header,
        layout,
        losses,
    } = open_losses(file);
    let terms = verdict.and_then(|()| balance(header, &losses));
    Opened {
        verdict: terms,
        header,
        layout,
        losses,
    }
}
