use crate::coin::ground_coin;
use fond_explicit::answer::Solved;
use fond_explicit::solve::solve;
use fond_task::task::Task;
use fond_text::fault::NoMemory;
use std::alloc::Global;
use std::test::Fail;

/// Whether a policy of one choice is found for the task.
fn is_won(alloc: Global, game: &Task) -> Result<bool, NoMemory> {
    match solve(alloc, game, &game.init, 2)? {
        Solved::Won(choices, _) => Ok(choices.len() == 1),
        _ => Ok(false),
    }
}

#[test]
fn a_fair_coin_is_won(rt: HostRuntime) -> Result<(), Fail> {
    let game = ground_coin(rt.alloc())?;
    assert!(rt; is_won(rt.alloc(), &game)?);
    Ok(())
}
