//! The way down a log whose nodes are read one by one.
ghost use Rattle.std.specs.Prelude.{◌≡◌, ◌≢◌, map, Err, IsTrue, OnOk};
ghost use Rattle.stn_edge.specs.Count.{Rose};
ghost use Rattle.row_relax.specs.View.{Fits, view_of};
ghost use Rattle.store_frames.specs.Frames.{OnlyReads};
ghost use Rattle.log_nodes.specs.Reading.{IsReading};
ghost use Rattle.log_nodes.specs.laws.Seen.{StandsBelow, seen};

use crate::cutting::cut_down;
use crate::node::Node;
use crate::pair::Pair;
use crate::reading::read_node;
use proof_log::LogReader;
use proof_tree::TakeStop;
use row_kit::Area;
use std::alloc::{AllocError, Global};
use stn_edge::{Shelf, Stop};

/// Why a log was not walked to its end.
#[derive(Clone, Copy, PartialEq, Eq, Debug)]
pub enum WalkStop {
    /// It could not be read.
    ReadFault,
    /// What is written meanwhile could not be written.
    WriteFault,
    /// There was no memory.
    Memory,
    /// It is no whole log over these rows.
    Other,
}

impl From<Stop> for WalkStop {
    ghost use Rattle.log_nodes.specs.laws.WalkStops.{read_stop};

    ghost from_gives = { λ stop given. given ≡ read_stop stop };

    fn from(stop: Stop) -> WalkStop {
        match stop {
            Stop::Failed => WalkStop::ReadFault,
            Stop::Memory => WalkStop::Memory,
        }
    }
}

impl From<TakeStop> for WalkStop {
    ghost use Rattle.log_nodes.specs.laws.WalkStops.{put_stop};

    ghost from_gives = { λ stop given. given ≡ put_stop stop };

    fn from(stop: TakeStop) -> WalkStop {
        match stop {
            TakeStop::Failed => WalkStop::WriteFault,
            TakeStop::Memory => WalkStop::Memory,
        }
    }
}

impl From<AllocError> for WalkStop {
    ghost use Rattle.log_nodes.specs.declared.entering.WalkStop.TheVariants.{Memory};

    ghost from_gives = { λ _ stop. stop ≡ Memory };

    fn from(_error: AllocError) -> WalkStop {
        WalkStop::Memory
    }
}

/// Reads the next node of a log, and makes its cuts in an area.
pub fn enter_node<F: Shelf>(
    alloc: Global,
    pair: Pair,
    files: &mut F,
    reader: &mut LogReader,
    area: &mut Area,
) -> Result<Node, WalkStop>
    requires allowed { IsTrue (F.may_read files.old pair.log.now) }
    requires reading { IsReading (F.files files.old) pair.log.now reader.old }
    requires fits { Fits pair.rows.now.program (seen area.old) }
    ensures reading { OnOk result (IsReading (F.files files.new) pair.entry.log.now reader.new) }
    ensures below { OnOk result (StandsBelow pair.entry.rows.now.program
        (map view_of area.old) (map view_of area.new)) }
    ensures frame { OnlyReads F.Shelf files.old files.new }
    ensures read_fault { result ≡ Err WalkStop.ReadFault
        → Rose (F.read_faults files.old) (F.read_faults files.new) }
    ensures no_fault { result ≢ Err WalkStop.WriteFault }
{
    let Some(node) = read_node(alloc, files, pair.log, reader)? else {
        return Err(WalkStop::Other);
    };
    if cut_down(pair.rows, area, node.cuts.as_slice()) {
        Ok(node)
    } else {
        Err(WalkStop::Other)
    }
}
