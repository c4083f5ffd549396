//! What is asked of a plant, of a plan or of a log that is given, and the words that say it.
ghost use Rattle.std.specs.Prelude.{◌≡◌, ◌≢◌, ◌∷◌, [], MatchOption};
ghost use Rattle.plan_tables.specs.declared.kind.TableKind.{TableKind as Kind};
ghost use Rattle.command_words.specs.declared.uses.PlantUse.{PlantUse as OfPlant};
ghost use Rattle.command_words.specs.declared.uses.PlanUse.{PlanUse as OfPlan};
ghost use Rattle.command_words.specs.declared.uses.LogUse.{LogUse as OfLog};
ghost use Rattle.command_words.specs.Words.{plant_word, use_word, last_words, kind_words, log_word};

use plan_tables::TableKind;

/// What is printed of a plant alone.
#[derive(Clone, Copy, Debug, PartialEq, Eq)]
pub enum PlantUse {
    /// `upgrade PLANT`: the plant as a file of version 3 where it is of version 3, else of version 2.
    Upgrade,
    /// `slots PLANT`: the slots and the rows of the plant's program by number.
    Slots,
}

/// What is done with a plan.
#[derive(Clone, Copy, Debug, PartialEq, Eq)]
pub enum PlanUse {
    /// `simulate PLANT PLAN`: say what it earns, or what it breaks first.
    Simulate,
    /// `report PLANT PLAN`: show it, or say what it breaks first.
    Report,
    /// `picture PLANT PLAN`: draw it, or say what it breaks first.
    Picture,
    /// `table PLANT PLAN ..`: print one of its tables, or say what it breaks first.
    Table(TableKind),
    /// `violations PLANT PLAN`: say everything that it breaks, or what it earns.
    Violations,
}

/// What is told of a proof log.
#[derive(Clone, Copy, Debug, PartialEq, Eq)]
pub enum LogUse {
    /// `check PLANT LOG`: its claim, or its first defect.
    Check,
    /// `plan PLANT LOG`: the plan that it claims, or its first defect.
    Plan,
}

/// What the word asks of a plant alone.
pub fn plant_use_of(word: &str) -> Option<PlantUse>
    ensures { MatchOption result ((usage : OfPlant) → plant_word usage ≢ word.now)
        (λ usage. plant_word usage ≡ word.now) }
{
    if word == "upgrade" {
        return Some(PlantUse::Upgrade);
    }
    if word == "slots" {
        return Some(PlantUse::Slots);
    }
    None
}

/// What the word asks of a plan, with no word after the files.
pub fn plan_use_of(word: &str) -> Option<PlanUse>
    ensures { MatchOption result
        ((usage : OfPlan) → last_words usage ≡ [] → use_word usage ≢ word.now)
        (λ usage. (use_word usage ≡ word.now) × (last_words usage ≡ [])) }
{
    if word == "simulate" {
        return Some(PlanUse::Simulate);
    }
    if word == "report" {
        return Some(PlanUse::Report);
    }
    if word == "picture" {
        return Some(PlanUse::Picture);
    }
    if word == "violations" {
        return Some(PlanUse::Violations);
    }
    if word == "table" {
        return Some(PlanUse::Table(TableKind::Batches));
    }
    None
}

/// The table that a word names.
pub fn kind_of(word: &str) -> Option<TableKind>
    ensures { MatchOption result ((kind : Kind) → kind_words kind ≢ word.now ∷ [])
        (λ kind. kind_words kind ≡ word.now ∷ []) }
{
    if word == "stocks" {
        return Some(TableKind::Stocks);
    }
    if word == "loads" {
        return Some(TableKind::Loads);
    }
    if word == "units" {
        return Some(TableKind::Units);
    }
    if word == "deliveries" {
        return Some(TableKind::Deliveries);
    }
    None
}

/// What the word asks of a log.
pub fn log_use_of(word: &str) -> Option<LogUse>
    ensures { MatchOption result ((usage : OfLog) → log_word usage ≢ word.now)
        (λ usage. log_word usage ≡ word.now) }
{
    if word == "check" {
        return Some(LogUse::Check);
    }
    if word == "plan" {
        return Some(LogUse::Plan);
    }
    None
}
