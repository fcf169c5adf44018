// Carries untagged commands, one at a time, over a bus that lets go of the line and takes it up again, by bus calls alone.
use crate::Job;
use anyhow::{Context, anyhow, bail};
use bus::{Bus, Selection, Shown};
use scsi::{Greeting, Message, read};
use shelf::Unit;
use std::ops::ControlFlow;

const TURNS: u32 = 1_000_000;

// A job underway: the current and the saved data pointer, and its status once it came.
#[derive(Drop)]
struct Underway<'a> {
    job: Job<'a>,
    current: usize,
    saved: usize,
    status: Option<u8>,
}

// Carries out a job, and says what came of it and each time the target lets go or comes back.
pub(crate) fn ask<B: Bus>(rt: &HostRuntime, bus: &mut B, job: Job) -> anyhow::Result<()> {
    let Unit { target, lun } = job.unit;
    println!(rt; "target {target} LUN {lun} {}", job.order)?;
    select(rt, bus, job.unit)?;
    let mut underway = Underway {
        job,
        current: 0,
        saved: 0,
        status: None,
    };
    for _ in 0..TURNS {
        if underway.turn(rt, bus)?.is_break() {
            return underway.tell(rt);
        }
    }
    Err(anyhow!("the command did not end"))
}

// Selects the unit, again and again until the selection is won.
fn select<B: Bus>(rt: &HostRuntime, bus: &mut B, unit: Unit) -> anyhow::Result<()> {
    let greeting = Greeting {
        lun: unit.lun,
        leave: true,
        tag: None,
    };
    for _ in 0..TURNS {
        match bus.look() {
            Shown::Free => match bus
                .select(unit.target, greeting.bytes().as_slice())
                .context("the bus refused the selection")?
            {
                Selection::Selected => return Ok(()),
                Selection::Lost => println!(rt; "  selection lost")?,
                Selection::Absent => bail!("the target is not there"),
            },
            Shown::Pause => bus.wait(),
            _ => bail!("the bus showed what this driver does not answer"),
        }
    }
    Err(anyhow!("the command did not end"))
}

impl Underway<'_> {
    // Looks once, does what the bus shows, and breaks at COMMAND COMPLETE.
    fn turn<B: Bus>(&mut self, rt: &HostRuntime, bus: &mut B) -> anyhow::Result<ControlFlow<()>> {
        match bus.look() {
            Shown::Free | Shown::Pause => bus.wait(),
            Shown::Reselect(from) => {
                let saved = self.saved;
                println!(rt; "  reselected by target {from}, at place {saved}")?;
                bus.accept()?;
            }
            Shown::Command => bus.command(&self.job.order.bytes())?,
            Shown::DataOut => {
                let byte = self
                    .job
                    .out
                    .get(self.current)
                    .copied()
                    .context("more data was asked for than there is")?;
                bus.give(byte)?;
                self.move_on()?;
            }
            Shown::DataIn(_) => {
                let current = self.current;
                let space = self
                    .job
                    .into
                    .get_mut(current)
                    .context("more data came than there is space for")?;
                *space = bus.take()?;
                self.move_on()?;
            }
            Shown::Status(_) => self.status = Some(bus.take()?),
            Shown::MessageIn(_) => {
                let message = bus.take()?;
                return self.hear(rt, message);
            }
            _ => bail!("the bus showed what this driver does not answer"),
        }
        Ok(ControlFlow::Continue(()))
    }

    fn move_on(&mut self) -> anyhow::Result<()> {
        self.current = self.current.checked_add(1).context("too much data")?;
        Ok(())
    }

    // What a message of one byte from the target does to the pointers; of a reselection's greeting there is nothing to do.
    fn hear(&mut self, rt: &HostRuntime, message: u8) -> anyhow::Result<ControlFlow<()>> {
        let Underway { current, saved, .. } = *self;
        match read(&[message]) {
            Some((Message::CommandComplete, _)) => return Ok(ControlFlow::Break(())),
            Some((Message::SaveDataPointer, _)) => self.saved = current,
            Some((Message::RestorePointers, _)) => {
                println!(rt; "  back from place {current} to {saved}")?;
                self.current = saved;
            }
            Some((Message::Disconnect, _)) => {
                println!(rt; "  disconnected at place {current}, saved {saved}")?;
                self.current = saved;
            }
            Some((Message::Identify { leave: false, .. }, _)) => {}
            _ => bail!("the target sent a message that this driver does not answer"),
        }
        Ok(ControlFlow::Continue(()))
    }

    fn tell(&self, rt: &HostRuntime) -> anyhow::Result<()> {
        let status = self.status.context("the command ended without a status")?;
        println!(rt; "  {} bytes, status {status:02X}h", self.current)?;
        if status != 0 {
            bail!("a command did not end with status 00h");
        }
        Ok(())
    }
}
