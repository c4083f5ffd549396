//! The multipliers of a program's rows.
use crate::simplex::Simplex;
use fixed_point::{NONE, ONE, at, put, whole_of};
use row_chains::Chains;
use simplex_state::{State, Stuck, blank};

impl Simplex {
    /// What one unit of a row of the program is worth, times 2 to a power; nothing where it does not bind.
    pub fn worth_of(&self, chains: &Chains, row: u32, power: i32) -> i128 {
        let row = chains.place_of(row);
        let place = self.kernel.place(row);
        let variable = self.own.of_row(row);
        if row == NONE || place == NONE || self.own.state(variable) == State::Basic {
            return 0;
        }
        let shift = chains
            .shift_at(row)
            .saturating_sub(chains.up)
            .saturating_add(power);
        whole_of(0i64.saturating_sub(self.own.profit(variable)), shift)
    }

    /// Writes the multipliers of the row that can't be mended, which `ray_of` reads; none where there is none.
    pub fn write_ray(&mut self) {
        blank(self.work.raw.as_mut_slice());
        if let Some(Stuck { place, .. }) = self.progress.stuck {
            put(self.work.multipliers.as_mut_slice(), place, ONE);
            self.kernel.solve_back(self.work.multipliers.as_mut_slice());
            self.kernel
                .write_raw(self.work.multipliers.as_slice(), &mut self.work.raw);
            blank(self.work.multipliers.as_mut_slice());
        }
    }

    /// The multiplier of a row of the program in the row that can't be mended, times 2 to a power.
    pub fn ray_of(&self, chains: &Chains, row: u32, power: i32) -> i128 {
        let row = chains.place_of(row);
        let place = self.kernel.place(row);
        if row == NONE || place == NONE {
            return 0;
        }
        let raw = at(self.work.raw.as_slice(), place);
        let low = match self.progress.stuck {
            None => return 0,
            Some(stuck) => stuck.low,
        };
        let part = if low { raw } else { 0i64.saturating_sub(raw) };
        whole_of(part, chains.shift_at(row).saturating_add(power))
    }
}
