//! A run over lanes that are lent: whoever lent them knows their counts afterwards.
ghost use Rattle.std.specs.Prelude.{◌≡◌, ◌+◌, ◌-◌, ◌^◌, ◌<◌, ◌≤◌, IfErr, IfOk, length};
ghost use Rattle.ooc_io.specs.Counts.{Rose};
ghost use Rattle.row_image.specs.Bytes.{IsPage};
ghost use Rattle.page_body.specs.Shows.{most_frames};
ghost use Rattle.page_body.specs.declared.fault.PoolFault.TheVariants as fault;
ghost use Rattle.solo_pool_runs.specs.Lanes.{total, AllBelow, OthersAs, SomeRose};

use crate::sets::fill;
use ooc_io::SpillLane;
use page_body::PoolFault;
use row_image::ImageKind;
use solo_pool::{Solo, SoloTables};
use std::alloc::Global;

/// Makes that many pages over a lane, and answers how many there are. A spill fault comes only where the lane failed, and
/// the pages beyond the frames were written to it.
pub fn run_one<L: SpillLane>(
    alloc: Global,
    page: u32,
    frames: u32,
    image: &[u8],
    count: u32,
    lane: &mut L,
) -> Result<usize, PoolFault>
    requires page { IsPage page }
    requires least { 24 ≤ frames }
    requires most { frames ≤ most_frames }
    requires long { length image.now ≡ page }
    ensures cause { IfErr result (λ e. e ≡ fault.Spill → Rose (L.faults lane.old) (L.faults lane.new)) }
    ensures writes { L.writes lane.new < 2 ^ 64 - 1 → IfOk result (λ made. made + L.writes lane.old ≤ frames + L.writes lane.new) }
{
    let mut tables = SoloTables::open_tables(alloc, page, frames)?;
    let mut pages = Solo::over(&mut tables, lane);
    let mut set = Vec::new(alloc);
    let filled = fill(&mut pages, &ImageKind::Heap, image, count, &mut set);
    match filled {
        Ok(()) => Ok(set.len()),
        Err(fault) => Err(fault),
    }
}

/// The same over the first of 64 lanes. The others stay as they are.
#[tactic(auto, using(crate::proofs::Rises::total_rose))]
pub fn run_many<L: SpillLane>(
    alloc: Global,
    page: u32,
    frames: u32,
    image: &[u8],
    count: u32,
    lanes: &mut [L],
) -> Result<usize, PoolFault>
    requires page { IsPage page }
    requires least { 24 ≤ frames }
    requires most { frames ≤ most_frames }
    requires long { length image.now ≡ page }
    requires lanes { length lanes.old ≡ 64 }
    ensures cause { IfErr result (λ e. e ≡ fault.Spill → SomeRose L.faults lanes.old lanes.new) }
    ensures writes { AllBelow L.writes lanes.new → IfOk result (λ made. made + total L.writes lanes.old ≤ frames + total L.writes lanes.new) }
    ensures others { OthersAs 0 lanes.old lanes.new }
{
    run_one(alloc, page, frames, image, count, &mut lanes[0])
}
