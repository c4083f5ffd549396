//! The constraint model over slots.
ghost use Rattle.std.specs.Prelude.{◌≡◌, ◌≤◌, ◌↔◌, length, unsigned_abs, IsSome, IfSome};
ghost use Rattle.std.specs.List.{All};
ghost use Rattle.row_kit.specs.Domain.{IsNormal};
ghost use Rattle.row_kit.specs.Bounds.{AreBounded, IsBoundedRow, IsBoundedChange, IsBoundedTag};

use crate::bounds::keeps_bounds;
use crate::domain::Domain;
use crate::list::List;
use crate::row::{Change, Entry, Row, Tag};

/// A constraint model over slots: each slot has one value of its root domain, each row is to be kept, and the value of a point
/// is `base` plus its profit entries. `changes` lists what a changeover from one started slot of a lane to the next costs, and a
/// tag what the slot costs where it is the first started one of its lane.
#[derive(Drop)]
pub struct Program {
    pub rows: List<Row>,
    pub profit: List<Entry>,
    pub base: i128,
    pub root: List<Domain>,
    pub tags: List<Tag>,
    pub changes: List<Change>,
    pub ghost few_slots: { length root ≤ 4096 },
    pub ghost root_normal: { All IsNormal root },
    pub ghost few_rows: { length rows ≤ 400000 },
    pub ghost rows_bounded: { All (IsBoundedRow (length root)) rows },
    pub ghost profit_bounded: { AreBounded (length root) 2000000000000000 profit },
    pub ghost base_bounded: { unsigned_abs base ≤ 10000000000000000000000 },
    pub ghost one_tag: { length tags ≡ length root },
    pub ghost costs_bounded: { All IsBoundedChange changes },
    pub ghost openings_bounded: { All IsBoundedTag tags },
}

impl Program {
    ghost use Rattle.row_kit.specs.Bounds.{KeepsBounds};

    /// The program of these parts. None comes exactly where they break a bound; the parts are then dropped.
    pub fn checked(
        rows: List<Row>,
        profit: List<Entry>,
        base: i128,
        root: List<Domain>,
        tags: List<Tag>,
        changes: List<Change>,
    ) -> Option<Program>
        ensures bounds { IsSome result ↔ KeepsBounds rows profit base root tags changes }
        ensures rows { IfSome result (λ program. program.rows ≡ rows) }
        ensures profit { IfSome result (λ program. program.profit ≡ profit) }
        ensures base { IfSome result (λ program. program.base ≡ base) }
        ensures root { IfSome result (λ program. program.root ≡ root) }
        ensures tags { IfSome result (λ program. program.tags ≡ tags) }
        ensures changes { IfSome result (λ program. program.changes ≡ changes) }
    {
        let slots = root.as_slice();
        if keeps_bounds(
            rows.as_slice(),
            profit.as_slice(),
            base,
            slots,
            tags.as_slice(),
            changes.as_slice(),
        ) {
            Some(Program {
                rows,
                profit,
                base,
                root,
                tags,
                changes,
            })
        } else {
            None
        }
    }
}
