// The replication machine of document 01, allowed runs, and their agreement: definitions and theorems, no running code.
// A function here does nothing: its contract is a theorem.
#![tactic(auto)]

ghost use Rattle.replication.specs.Pairs.{Pairs};
ghost use Rattle.replication.specs.Runs.Claim.{Demand3, Corollaries, KeptWhileUp};
ghost use Rattle.replication.specs.Runs.Whites.{NotedGreenIsWhite, WhitesAreGreen, WhiteWasStored, NothingGone, NonePassedOver};
ghost use Rattle.replication.specs.Runs.Noted.{NotedNeverFall};
ghost use Rattle.replication.specs.Runs.Requests.{RequestsKept};
ghost use Rattle.replication.specs.Runs.Settling.{Settling};

// Document 01's pairs P1 to P8, P2 as document 02's K1 has it, and the pairs that pin K1's rule.
pub fn pairs()
    ensures { Pairs }
{}

// Demand 3: in every allowed run, stray events included, at every moment, green lists agree and primary components agree.
pub fn runs_agree()
    ensures { Demand3 }
{}

// Stored green lists agree at different moments too; what is green in a store keeps its place; every last primary known anywhere is one of the
// primary components.
pub fn corollaries()
    ensures { Corollaries }
{}

// What a server has green keeps its place while that server stays up, at every server whose green list is so long, stored or not.
pub fn kept_while_up()
    ensures { KeptWhileUp }
{}

// "a noted length never falls", in every run.
pub fn noted_never_fall()
    ensures { NotedNeverFall }
{}

// Document 02, K4: an action is sent one time only, in order; what counts as sent was put out, and all of the own list where requests are sent; what
// is entered is not sent; nothing that was answered 0 is lost; a request is taken until the quota is used, 3 then; number 4 never occurs.
pub fn requests_kept()
    ensures { RequestsKept }
{}

// Document 02, K13: what each member of a regular configuration with a quorum sends, from which delivery on it is in Reg_prim, and that
// the members' green lists are equal then.
pub fn settles()
    ensures { Settling }
{}

// Document 02, K6: in every run what is green on every server, by the noted lengths, is white.
pub fn noted_green_is_white()
    ensures { NotedGreenIsWhite }
{}

// Document 02, K6: in every allowed run an action white anywhere is green in every server's store.
pub fn whites_are_green()
    ensures { WhitesAreGreen }
{}

// .. and was so before the event that turned it white.
pub fn white_was_stored()
    ensures { WhiteWasStored }
{}

// Document 02, K6: nothing that an exchange in an allowed run must resend is ever gone.
pub fn nothing_gone()
    ensures { NothingGone }
{}

// Document 02, K6: no allowed run passes over an action for which there is no place.
pub fn none_passed_over()
    ensures { NonePassedOver }
{}
