// The replay program, on the cases of 01 that are run and not proved, on those of order 8, and on a guest that tries to break the card.
#![tactic(auto)]

fn main(rt: HostRuntime) {
    replay_run::run(&mut rt.stdin(), &mut rt.stdout());
}
