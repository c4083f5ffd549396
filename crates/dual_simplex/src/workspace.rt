//! Where the bounds of a program are computed.
ghost use Rattle.std.specs.Prelude.{◌≡◌, ◌≤◌, length, true, IfOk};
ghost use Rattle.std.specs.List.{All};
ghost use Rattle.row_kit.specs.Area.{present};
ghost use Rattle.row_kit.specs.Domain.{IsOpen};
ghost use Rattle.row_kit.specs.Point.{LiesIn};
ghost use Rattle.dual_bound.specs.Total.{are_fit};
ghost use Rattle.dual_simplex.specs.Solved.{HasTotals};

use crate::mults::{Source, list_mults};
use crate::prices::{Prices, Side, Trial, price};
use crate::rounding::rounded;
use crate::splitting::Split;
use chain_simplex::{Amount, Basis, End, Restriction, Simplex};
use dual_bound::{Cert, Mult};
use fixed_point::{ONE, numbered, of_whole, put_last, whole_of, wide};
use row_chains::{Chains, are_two_free, base_worth, most_at, sides_of, terms_of};
use row_kit::{Area, Domain, Entry, List, Program};
use std::alloc::{AllocError, Global};

// What is left to a whole number where a sum counts as come to it: about 1 in 10,000.
const HALF_TINY: i128 = 107_374;

// The scale of certificates: 2 to the power 18.
const SCALE: u32 = 262_144;

/// How a bound ends.
#[derive(Clone, Copy, PartialEq, Eq, Debug)]
pub enum Outcome {
    /// Every row is kept, but for what is tiny.
    Settled,
    /// A row can't be mended, which a ray may show.
    NoPoint,
    /// The profit has come down to the one that is aimed at.
    Reached,
    /// The steps are spent, or there is no more room.
    Stopped,
}

/// What the bounds of a program are computed in. It has room for all that can come: no call but `new` takes memory, beside the
/// certificates that are handed out.
///
/// Money is in a unit of its own, 2 to a power that the program's profits tell, with 30 bits of fraction.
#[derive(Drop)]
pub struct Workspace {
    chains: Chains,
    simplex: Simplex,
    domains: Vec<Domain>,
    mults: Vec<Mult>,
    base: i128,
    aim: i64,
}

impl Workspace {
    /// A workspace for a program. The slots from `given` on and before `points` are those of sums, each with two rows (`SumRows`): they
    /// need no columns, and count in each row with the end of their domain that is best for it. Where there are no sums, `given` is
    /// `points`; where no slots follow those of sums, that is the number of slots.
    pub fn new(
        alloc: Global,
        program: &Program,
        given: u32,
        points: u32,
    ) -> Result<Workspace, AllocError> {
        let chains = Chains::new(alloc, program, given, points)?;
        let simplex = Simplex::new(alloc, &chains)?;
        Ok(Workspace {
            chains,
            simplex,
            domains: Vec::with_capacity(alloc, program.root.len())?,
            mults: Vec::with_capacity(alloc, program.rows.len())?,
            base: 0,
            aim: i64::MIN,
        })
    }

    /// Bounds an area from a basis by at most this many steps, each of which makes at most one pivot. Where there is an aim, it ends
    /// once no point of the area may be worth more.
    pub fn bound(
        &mut self,
        program: &Program,
        area: &Area,
        start: &Basis,
        aim: Option<i128>,
        most: u32,
    ) -> Outcome {
        self.read_domains(area);
        self.base = base_worth(program, self.domains.as_slice());
        self.aim = match aim {
            None => i64::MIN,
            Some(aim) => self.in_unit(&aim.saturating_add(1).saturating_sub(self.base)),
        };
        let domains = self.domains.as_slice();
        self.simplex.begin(&self.chains, program, domains, start);
        outcome_of(self.simplex.run(&self.chains, most, self.aim))
    }

    /// Goes on where a bound has ended, with an aim that is a 32nd of a money unit lower than what it has reached.
    pub fn go_on(&mut self, most: u32) -> Outcome {
        let step = self.in_unit(&1) / 32;
        let stop = self.simplex.profit().saturating_sub(step);
        outcome_of(self.simplex.run(&self.chains, most, stop))
    }

    // Copies the domains of an area.
    fn read_domains(&mut self, area: &Area) {
        self.domains.clear();
        for slot in 0..area.slot_count() {
            put_last(&mut self.domains, area.domain(slot));
        }
    }

    // Money in the workspace's unit.
    fn in_unit(&self, money: &i128) -> i64 {
        of_whole(money, self.chains.up)
    }

    /// The pivots since the last bound has begun, beside those that led to its basis.
    pub fn pivots(&self) -> u32 {
        self.simplex.pivots()
    }

    /// Notes where the last bound has ended.
    pub fn save(&self, basis: &mut Basis) {
        self.simplex.save(&self.chains, basis);
    }

    /// The certificate of where the last bound has ended, at scale 2 to the power 18. It has a total over each area without an empty
    /// domain.
    pub fn certificate(&mut self, alloc: Global, program: &Program) -> Result<Cert, AllocError>
        ensures scale { IfOk result (λ cert. cert.scale ≡ 262144) }
        ensures total { IfOk result (HasTotals program.now) }
    {
        let mults = self.mults_of(alloc, program, Source::Profits)?;
        Ok(Cert {
            scale: SCALE,
            mults,
        })
    }

    /// The ray of the row that could not be mended, times 2 to a power, with scale 0; without multipliers where there is none. It
    /// has a total over each area without an empty domain.
    pub fn ray(&mut self, alloc: Global, program: &Program, power: i32) -> Result<Cert, AllocError>
        ensures scale { IfOk result (λ cert. cert.scale ≡ 0) }
        ensures total { IfOk result (HasTotals program.now) }
    {
        self.simplex.write_ray();
        let mults = self.mults_of(alloc, program, Source::Ray(power))?;
        Ok(Cert { scale: 0, mults })
    }

    // The multipliers of a source.
    fn mults_of(
        &mut self,
        alloc: Global,
        program: &Program,
        source: Source,
    ) -> Result<List<Mult>, AllocError>
        ensures fit { IfOk result (λ mults. are_fit (length program.now.rows) 0 mults ≡ true) }
        ensures few { IfOk result (λ mults. length mults ≤ 50000) }
    {
        list_mults(
            &self.simplex,
            &self.chains,
            program,
            source,
            &mut self.mults,
        );
        List::from_slice(alloc, self.mults.as_slice())
    }

    /// What a slot comes to.
    pub fn amount(&self, slot: u32) -> Amount {
        self.simplex.amount(slot)
    }

    /// Writes a point of an area: for each slot the value nearest to what it comes to.
    pub fn round(&self, area: &Area, point: &mut [u8])
        requires slots { length point.old ≡ length (present area.now) }
        requires open_ { All IsOpen (present area.now) }
        ensures { LiesIn (present area.now) point.new }
    {
        for slot in 0..area.slot_count() {
            let domain = area.domain(slot);
            point[slot as usize] = rounded(&self.amount(slot), &domain);
        }
    }

    /// About the worth at which the last bound has ended, in money, rounded.
    pub fn worth(&self) -> i128 {
        let power = 0i32.saturating_sub(self.chains.up);
        self.base
            .saturating_add(whole_of(self.simplex.profit(), power))
    }

    /// How far the profit lies above the one that is aimed at; None where nothing is.
    pub fn gap(&self) -> Option<i64> {
        if self.aim == i64::MIN {
            return None;
        }
        Some(self.simplex.profit().saturating_sub(self.aim))
    }

    /// What a split of a slot costs by one dual step; None where there is no such slot.
    pub fn prices(&mut self, program: &Program, slot: u32, max: u8) -> Option<Prices> {
        let split = self.split(program, slot, max)?;
        let terms = split.terms(program);
        let count = self.simplex.sum_of(terms, split.shift);
        let rates = self.simplex.rates(&self.chains, terms, split.shift);
        Some(Prices {
            at_most: price(count.saturating_sub(split.at_most), rates.fall),
            above: price(split.above.saturating_sub(count), rates.rise),
        })
    }

    // The split of a slot after a value.
    fn split(&self, program: &Program, slot: u32, max: u8) -> Option<Split> {
        match self.domains.get(slot as usize) {
            None => None,
            Some(domain) => Some(Split::new(program, &self.chains, slot, domain, max)),
        }
    }

    /// What the terms of the sum of a slot come to above the most that they may where its value is at most `max`, with 30 bits of
    /// fraction: from 0 to 1 where the split at that value cuts the solution off on both sides. None where the slot is not one of a
    /// sum.
    pub fn sum_above(&self, program: &Program, slot: u32, max: u8) -> Option<i64> {
        let sides = sides_of(program, &self.chains.sums, slot)?;
        let terms = terms_of(program, sides.row);
        let count = self.sum_count(terms);
        let most = most_at(&sides, max).saturating_mul(i128::from(ONE));
        i64::try_from(count.saturating_sub(most)).ok()
    }

    /// The value of the sum of a slot, rounded down, where its terms come to what they do; None where the slot is not one of a sum,
    /// or fewer than two of its terms' slots have two values.
    pub fn sum_value(&self, program: &Program, slot: u32) -> Option<i64> {
        let sides = sides_of(program, &self.chains.sums, slot)?;
        let terms = terms_of(program, sides.row);
        if !are_two_free(terms, self.domains.as_slice()) || sides.width < 1 {
            return None;
        }
        let count = self.sum_count(terms).saturating_add(HALF_TINY);
        let whole = count
            .div_euclid(i128::from(ONE))
            .saturating_add(sides.offset);
        i64::try_from(whole.div_euclid(i128::from(sides.width))).ok()
    }

    // What terms come to, with 30 bits of fraction.
    fn sum_count(&self, terms: &[Entry]) -> i128 {
        let mut sum = 0i128;
        for term in terms {
            let amount = self.amount(term.slot);
            sum = sum
                .saturating_add(wide(amount.started, term.fixed))
                .saturating_add(wide(amount.quanta, term.per));
        }
        sum
    }

    /// Bounds one side of a split by at most this many steps; all is afterwards as before. None where there is no such slot.
    pub fn trial(
        &mut self,
        program: &Program,
        slot: u32,
        max: u8,
        side: Side,
        most: u32,
    ) -> Option<Trial> {
        let split = self.split(program, slot, max)?;
        let restriction = Restriction {
            terms: split.terms(program),
            shift: split.shift,
            end: split.end(side),
            at_most: side == Side::AtMost,
        };
        let (end, fall) = self
            .simplex
            .try_row(&self.chains, &restriction, most, self.aim);
        match end {
            End::NoPoint | End::Reached => Some(Trial::Closes),
            End::Settled | End::Stopped => Some(Trial::Falls(fall)),
        }
    }
}

// How a bound ends.
fn outcome_of(end: End) -> Outcome {
    match end {
        End::Settled => Outcome::Settled,
        End::NoPoint => Outcome::NoPoint,
        End::Reached => Outcome::Reached,
        End::Stopped => Outcome::Stopped,
    }
}
