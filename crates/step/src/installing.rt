// Install, where the last CPC comes and where an action comes in Un.
ghost use Rattle.std.specs.Prelude.{◌≡◌, ◌<◌};
ghost use Rattle.format.specs.Limits.{most_index_limit};
ghost use Rattle.record.specs.Codes.{mode_code};
ghost use Rattle.record.specs.Values.{action_of};
ghost use Rattle.replication.specs.Machine.Types.{Trans_prim, Construct, No, Un, in_mode, with_votes};
ghost use Rattle.replication.specs.Machine.Install.{install_votes, install as installed};
ghost use Rattle.replication.specs.Machine.Step.{installing, collect_cpc};
ghost use Rattle.replication.specs.Machine.WellFormedFacts.{Configured};
ghost use Rattle.replication.specs.Laws.RuleFits.{Delivered};
ghost use Rattle.image.specs.Holding.{HoldsSuch, Becomes};
ghost use Rattle.outgoing.specs.Lent.{LentSuch};
ghost use Rattle.step.specs.Answers.{taken_answer, Installs, with_late_cpc, AnswersBy, AnswersFor};
ghost use Rattle.updates.specs.Lists.{BecomesIn};
ghost use Rattle.step.specs.Events.{BecomesInstalled};

use crate::Taken;
use crate::colours::yellow;
use crate::requests::send_all;
use crate::sieve::pass;
use exchange::decided::all_cpcs_in;
use install::installing::{install, install_log, install_votes};
use record::{ActionHead, Mode};
use updates::membership::{add_cpc, set_mode};

// Install, and the state that it leads to; that one first, since row 8 bounds the primary index in Construct and Un.
fn install_in(state: &mut [u8], mode: Mode)
    requires { HoldsSuch (Installs (mode_code mode)) state.old }
    ensures { BecomesIn (mode_code mode) (λ m s. in_mode m (installed s)) state.old state.new }
{
    set_mode(state, u8::from(mode));
    install(state);
}

// The rest of Install in Un, and Trans_prim.
fn end_install(state: &mut [u8])
    requires { HoldsSuch (Installs 2) state.old }
    ensures { Becomes (λ s. in_mode Trans_prim (with_votes (install_votes s.votes) s)) state.old state.new }
{
    set_mode(state, u8::from(Mode::TransPrim));
    install_votes(state);
}

// "Un: action does Install, then yellow". The action meets the log after Install: the white length is taken there.
pub fn late_install(state: &mut [u8], head: ActionHead, payload: &[u8])
    requires { HoldsSuch (λ s. Delivered s (action_of head payload.now) × (s.membership.mode ≡ Un)) state.old }
    ensures { BecomesInstalled (action_of head payload.now) state.old state.new }
{
    install_log(state);
    let x = pass(state, head);
    end_install(state);
    yellow(state, x, payload);
}

// "Install, to Reg_prim"
fn install_all(state: &mut [u8], out: &mut [u8]) -> Taken
    requires { LentSuch (λ t. Configured t × (t.votes.last.index < most_index_limit)) state.old out.old }
    ensures { AnswersFor installing (taken_answer result) state out }
{
    install_in(state, Mode::RegPrim);
    send_all(state, out)
}

// "Construct: when every member's CPC is in: Install, to Reg_prim"
pub fn collect_cpc(state: &mut [u8], out: &mut [u8], k: u8) -> Taken
    requires { LentSuch (λ s. (k < s.servers) × (s.membership.mode ≡ Construct)) state.old out.old }
    ensures { AnswersBy (collect_cpc k) (taken_answer result) state out }
{
    add_cpc(state, k);
    if !all_cpcs_in(state) {
        return Taken::quiet();
    }
    install_all(state, out)
}

// "No: all CPCs in, to Un"
pub fn collect_late_cpc(state: &mut [u8], k: u8)
    requires { HoldsSuch (λ s. (k < s.servers) × (s.membership.mode ≡ No)) state.old }
    ensures { Becomes (with_late_cpc k) state.old state.new }
{
    add_cpc(state, k);
    if all_cpcs_in(state) {
        set_mode(state, u8::from(Mode::Un));
    }
}
