// Prints a strip over one cable: writes it to a disk block by block, reads it back, compares it, and prints it on film;
// first over a strict bus, then over a whim bus, on which commands are interrupted, let go and resumed.
#![tactic(auto)]

ghost use Rattle.std.specs.Prelude.{◌<◌, ◌^◌};

mod interrupted;

use anyhow::{bail, ensure};
use carrier::{Carried, carry_in, carry_out};
use devices::{Disk, Pair, Recorder};
use shelf::Unit;
use strict_bus::StrictBus;
use strip::{Order, adler32, draw};
use whim_bus::WhimBus;

const DISK: Unit = Unit { target: 0, lun: 0 };

const RECORDER: Unit = Unit { target: 3, lun: 0 };

const BLOCK: usize = 512;

const PRINT: usize = 2048;

const STRIP: usize = 4096;

const SHORT: usize = 1024;

fn main(rt: HostRuntime) -> anyhow::Result<()> {
    print_over::<_, STRIP>(&rt, "strip", &mut StrictBus::new(units(&rt)?))?;
    print_over::<_, SHORT>(
        &rt,
        "strip over the whim bus",
        &mut WhimBus::new(units(&rt)?, whims()),
    )
}

type Units = Pair<Disk, Recorder>;

fn units(rt: &HostRuntime) -> anyhow::Result<Units> {
    Ok(Pair {
        first: Disk::new(rt.alloc(), DISK.target, 64)?,
        second: Recorder::new(rt.alloc(), RECORDER.target, 8192)?,
    })
}

// An order to a unit, with the data that it may ask for and the space for what may come.
#[derive(Drop)]
struct Job<'a> {
    unit: Unit,
    order: Order,
    out: &'a [u8],
    into: &'a mut [u8],
}

// A bus with the units behind it, and how a whole job is carried out over it.
trait Cable {
    // Carries out a job, and says what came of it.
    fn ask(&mut self, rt: &HostRuntime, job: Job) -> anyhow::Result<()>;

    fn units(&self) -> &Units;
}

// Prints a strip of this size.
fn print_over<C: Cable, const SIZE: usize>(
    rt: &HostRuntime,
    name: &str,
    cable: &mut C,
) -> anyhow::Result<()>
    requires { SIZE < 2 ^ 63 }
{
    let mut drawn = [0; SIZE];
    draw(&mut drawn);
    println!(rt; "{name}: {SIZE} bytes, Adler-32 {:08x}", adler32(&drawn))?;
    write(rt, cable, &drawn)?;
    let mut copy = [0; SIZE];
    read(rt, cable, &mut copy)?;
    ensure!(copy == drawn, "the strip came back changed");
    println!(rt; "compared: the strip came back as it was written")?;
    print(rt, cable, &copy)?;
    let film = cable.units().second.film();
    println!(rt;
        "film: {} bytes, Adler-32 {:08x}",
        film.len(),
        adler32(film)
    )?;
    Ok(())
}

// Writes bytes to the disk, from its first block on.
fn write<C: Cable>(rt: &HostRuntime, cable: &mut C, bytes: &[u8]) -> anyhow::Result<()> {
    for (block, out) in (0..).zip(bytes.chunks_exact(BLOCK)) {
        let job = Job {
            unit: DISK,
            order: Order::Write(block),
            out,
            into: &mut [],
        };
        cable.ask(rt, job)?;
    }
    Ok(())
}

// Reads from the disk, from its first block on.
fn read<C: Cable>(rt: &HostRuntime, cable: &mut C, bytes: &mut [u8]) -> anyhow::Result<()> {
    for (block, into) in (0..).zip(bytes.chunks_exact_mut(BLOCK)) {
        let job = Job {
            unit: DISK,
            order: Order::Read(block),
            out: &[],
            into,
        };
        cable.ask(rt, job)?;
    }
    Ok(())
}

// Prints bytes on film.
fn print<C: Cable>(rt: &HostRuntime, cable: &mut C, bytes: &[u8]) -> anyhow::Result<()> {
    for out in bytes.chunks(PRINT) {
        let count = u16::try_from(out.len())?;
        let job = Job {
            unit: RECORDER,
            order: Order::Print(count),
            out,
            into: &mut [],
        };
        cable.ask(rt, job)?;
    }
    Ok(())
}

impl Cable for StrictBus<Units> {
    fn ask(&mut self, rt: &HostRuntime, job: Job) -> anyhow::Result<()> {
        let Job {
            unit,
            order,
            out,
            into,
        } = job;
        let command = order.bytes();
        let carried = match order {
            Order::Read(_) => carry_in(self, unit, &command, into)?,
            Order::Write(_) | Order::Print(_) => carry_out(self, unit, &command, out)?,
        };
        let Unit { target, lun } = unit;
        let Carried { status, moved } = carried;
        let [a, b, c, d, e, f] = command;
        // One call, so that the line goes out whole.
        println!(rt;
            "target {target} LUN {lun} {a:02X} {b:02X} {c:02X} {d:02X} {e:02X} {f:02X} {order}: {moved} bytes, status {status:02X}h"
        )?;
        if status != 0 {
            println!(rt; "stopped: {order} at target {target} ended with status {status:02X}h")?;
            bail!("a command did not end with status 00h");
        }
        Ok(())
    }

    fn units(&self) -> &Units {
        self.shelf()
    }
}

impl Cable for WhimBus<Units> {
    fn ask(&mut self, rt: &HostRuntime, job: Job) -> anyhow::Result<()> {
        interrupted::ask(rt, self, job)
    }

    fn units(&self) -> &Units {
        self.shelf()
    }
}

// Whim bytes that let most data through, and now and then save, go back, let go and come back.
fn whims() -> [u8; 256] {
    let mut whims = [0; 256];
    whims[5] = 1;
    whims[60] = 1;
    whims[61] = 3;
    whims[64] = 1;
    whims[130] = 2;
    whims[180] = 3;
    whims[183] = 1;
    whims[200] = 1;
    whims[240] = 2;
    whims
}
