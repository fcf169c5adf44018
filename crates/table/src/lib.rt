//! The step table of the initiator's engine, its calls, and what holds of every list of them: definitions and proofs.
#![tactic(auto)]

ghost use Rattle.table.specs.Guarantee.{EveryListKeeps, EveryCallIsLawful, DoneIsReached};
ghost use Rattle.table.specs.Meant.{SpokenAsMeant, NumberedAlike, FinishedIsCollectable};
ghost use Rattle.table.specs.Sound.{SoundOnEveryBus};
ghost use Rattle.table.specs.Regions.{KeepsToRegions, StepWritesInside, RunWritesInside};
ghost use Rattle.table.specs.Isolation.{StepByValues, RunByValues, RunsAsPlayed, RunAsPlayed, SameOnEveryBus};

/// Every list of calls, on a bus in order over any shelf, keeps the guarantee.
pub fn every_list_keeps()
    ensures { EveryListKeeps }
{}

/// So does every list with one more call, by that call's own promise.
pub fn every_call_is_lawful()
    ensures { EveryCallIsLawful }
{}

/// Some list of calls finishes a command DONE.
pub fn done_is_reached()
    ensures { DoneIsReached }
{}

/// The engine stays sound on every bus, in order or not.
pub fn sound_on_every_bus()
    ensures { SoundOnEveryBus }
{}

/// On every bus a step and a run keep to the regions of uncollected commands.
pub fn keeps_to_regions()
    ensures regions { KeepsToRegions }
    ensures step { StepWritesInside }
    ensures run { RunWritesInside }
{}

/// On every bus a step and a run go the same way over memories that are alike where they may read.
pub fn isolated_by_values()
    ensures step { StepByValues }
    ensures run { RunByValues }
    ensures step_as_played { RunsAsPlayed }
    ensures run_as_played { RunAsPlayed }
    ensures on_every_bus { SameOnEveryBus }
{}

/// What is spoken reads back as the message meant, and numbers and reports mean what their names say.
pub fn words_mean_what_they_say()
    ensures spoken { SpokenAsMeant }
    ensures numbers { NumberedAlike }
    ensures finished { FinishedIsCollectable }
{}
