// Demand 3 on the buffers of daemons, what the outgoing buffer holds, and what a request's answer says: definitions and theorems, no running code.
// The functions here do nothing: their contracts are the theorems.
#![tactic(auto)]

ghost use Rattle.daemons.specs.Claim.{BuffersDemand};
ghost use Rattle.daemons.specs.Outgoing.{OutgoingRecords};
ghost use Rattle.daemons.specs.Requests.{RequestAnswers};

// Daemons that keep each server's state and stored image in buffers, as the C interface says: in every allowed run, at every moment, the buffers hold
// the machine's states, white actions blank, the green lists, white part included, and the primaries read from the buffers agree, and the records put
// out are the machine's.
pub fn buffers_agree()
    ensures { BuffersDemand }
{}

// After a taken event the outgoing buffer holds its records one after another from its beginning, each exactly its writing, which reads back as it at
// every server of the same n and q; behind the last it is as it was.
pub fn outgoing_records()
    ensures { OutgoingRecords }
{}

// Document 02, K4: number 4 is never returned; a request that is answered 0 is to be stored, and its action is then on the own list.
pub fn request_answers()
    ensures { RequestAnswers }
{}
