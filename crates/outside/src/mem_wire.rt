ghost use Rattle.std.specs.Prelude.{◌≡◌, ◌∷◌, [], ◌++◌, OnOk, OnErr, IfOk, Some, if◌then◌else◌, is_ok};
ghost use Rattle.outside.specs.Calls.{no_calls, GoesAsPlanned, wire_failed};
ghost use Rattle.outside.specs.Faults.{HasWireCause};
ghost use Rattle.outside.specs.Happenings.{next_of, rest_of};
ghost use Rattle.outside.specs.declared.wire.WireOut.TheVariants.{Sent, Closed, Replied};

use crate::call_plan::CallPlan;
use crate::fault::WireFault;
use crate::wire::{Happening, Wire, WireOut};
use schema_model::{Bytes, ConnNum};
use std::alloc::Global;
use std::collections::VecDeque;
use std::marker::Model;

/// A wire in memory: its happenings are given, and what it carries is kept. The calls of its four
/// methods are counted together from 1, and those with given numbers fail. A call that finds no
/// memory carries nothing.
#[derive(Drop)]
pub struct MemWire {
    alloc: Global,
    coming: VecDeque<Happening>,
    carried: Vec<WireOut>,
    calls: CallPlan,
}

impl Model for MemWire {
    ghost use Rattle.outside.specs.MemWire.{WireState};

    ghost Value = { WireState };

    ghost view = { λ w. record { coming = w.coming.items; carried = w.carried.items; calls = w.calls } };
}

impl MemWire {
    /// A wire on which this happens, the first event first, with the numbers of the calls that are to fail.
    /// It takes no memory yet.
    pub fn new(alloc: Global, coming: Vec<Happening>, failing: Vec<u64>) -> Self
        ensures coming { result.coming ≡ coming.items }
        ensures carried { result.carried ≡ [] }
        ensures calls { result.calls ≡ no_calls failing.items }
    {
        MemWire {
            alloc,
            coming: VecDeque::from_vec(coming),
            carried: Vec::new(alloc),
            calls: CallPlan::new(failing),
        }
    }

    /// What it was given to carry.
    pub fn carried(&self) -> &[WireOut]
        ensures { result.now ≡ self.now.carried }
    {
        self.carried.as_slice()
    }

    /// How often it has failed.
    pub fn faults(&self) -> u64
        ensures { result ≡ self.now.calls.faults }
    {
        self.calls.faults()
    }
}

impl Wire for MemWire {
    ghost faults = { λ w. w.calls.faults };

    ghost coming = { λ w. Some w.coming };

    ghost carried = { λ w. Some w.carried };

    fn next(&mut self, _now: u64) -> Result<Happening, WireFault>
        ensures next { IfOk result (λ happening.
            (happening ≡ next_of self.old.coming) × (self.new.coming ≡ rest_of self.old.coming)) }
        ensures err { OnErr result (self.new.coming ≡ self.old.coming) }
        ensures carried { self.new.carried ≡ self.old.carried }
        ensures cause { HasWireCause self.old.calls.faults self.new.calls.faults result }
        ensures calls { GoesAsPlanned self.old.calls self.new.calls (wire_failed result) }
    {
        if self.calls.begins_failing() {
            return Err(WireFault::Failed);
        }
        Ok(self.coming.pop_front().unwrap_or(Happening::Idle))
    }

    fn send(&mut self, conn: ConnNum, bytes: &[u8]) -> Result<(), WireFault>
        ensures carried { self.new.carried ≡
            (if is_ok result then self.old.carried ++ Sent conn bytes.now ∷ [] else self.old.carried) }
        ensures coming { self.new.coming ≡ self.old.coming }
        ensures cause { HasWireCause self.old.calls.faults self.new.calls.faults result }
        ensures calls { GoesAsPlanned self.old.calls self.new.calls (wire_failed result) }
    {
        if self.calls.begins_failing() {
            return Err(WireFault::Failed);
        }
        let bytes = Bytes::from_slice(self.alloc, bytes)?;
        self.carried.push(WireOut::Sent(conn, bytes))?;
        Ok(())
    }

    fn close(&mut self, conn: ConnNum, code: u16) -> Result<(), WireFault>
        ensures carried { self.new.carried ≡
            (if is_ok result then self.old.carried ++ Closed conn code ∷ [] else self.old.carried) }
        ensures coming { self.new.coming ≡ self.old.coming }
        ensures cause { HasWireCause self.old.calls.faults self.new.calls.faults result }
        ensures calls { GoesAsPlanned self.old.calls self.new.calls (wire_failed result) }
    {
        if self.calls.begins_failing() {
            return Err(WireFault::Failed);
        }
        self.carried.push(WireOut::Closed(conn, code))?;
        Ok(())
    }

    fn reply(&mut self, conn: ConnNum, json: &[u8]) -> Result<(), WireFault>
        ensures carried { self.new.carried ≡
            (if is_ok result then self.old.carried ++ Replied conn json.now ∷ [] else self.old.carried) }
        ensures coming { self.new.coming ≡ self.old.coming }
        ensures cause { HasWireCause self.old.calls.faults self.new.calls.faults result }
        ensures calls { GoesAsPlanned self.old.calls self.new.calls (wire_failed result) }
    {
        if self.calls.begins_failing() {
            return Err(WireFault::Failed);
        }
        let bytes = Bytes::from_slice(self.alloc, json)?;
        self.carried.push(WireOut::Replied(conn, bytes))?;
        Ok(())
    }
}
