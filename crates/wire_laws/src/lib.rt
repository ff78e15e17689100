//! Laws of patches: what they make of the rows that they are done to.
#![tactic(auto)]

ghost use Rattle.wire_laws.specs.PatchLaw.{PatchLeads, EncodedPatchLeads};
ghost use Rattle.wire_laws.specs.FrameLaw.{FrameLeads, FullLeads, JoinedLead, TicksLead};

/// The patch from old rows to new rows, done to the old rows and freed of what nothing holds, gives
/// the new rows.
pub fn patch_leads()
    ensures { PatchLeads }
{}

/// The same of the patch as it is told, when what each link leads to is found again from the rows
/// known so far.
pub fn encoded_patch_leads()
    ensures { EncodedPatchLeads }
{}

/// A state frame, its shared part done first and then its view part, leads a client from its old view
/// to its new one.
pub fn frame_leads()
    ensures { FrameLeads }
{}

/// A full state leads a client from the root alone to its view.
pub fn full_leads()
    ensures { FullLeads }
{}

/// After any list of ticks a client that had its view has its view.
pub fn ticks_lead()
    ensures { TicksLead }
{}

/// A client that gets a full state and then the frame of each tick has its view after each.
pub fn joined_lead()
    ensures { JoinedLead }
{}
