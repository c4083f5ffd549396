//! The words of the tables and keys.
ghost use Rattle.std.specs.Prelude.{◌≡◌};

use crate::fault::{KeyName, TableName};

/// The word that stands beside the value's name in a table of words.
macro_rules! words {
    ($value:expr, $kind:ident; $($name:ident $word:literal,)+) => {
        match $value {
            $($kind::$name => $word,)+
        }
    };
}

impl KeyName {
    ghost use Rattle.plant_text.specs.Words.{key_word};

    /// The word of the key, as a plant file writes it.
    #[tactic(auto, unfolding(crate::specs::Words::key_word))]
    pub fn word(self) -> &'static str
        ensures { result.now ≡ key_word self }
    {
        words! { self, KeyName;
            Whole "-", Version "version", Periods "periods", Start "start", Minutes "minutes", State "state", Utility "utility",
            StnUnit "unit", Task "task", Run "run", Gap "gap", Receipt "receipt",
            Delivery "delivery", Outage "outage", Name "name", Label "label", Colour "colour", Initial "initial", Limit "limit",
            Limits "limits", Price "price", Holding "holding", Rate "rate", Rates "rates", Quantum "quantum",
            Input "input", Output "output", Draw "draw", Part "part", Delay "delay", Fixed "fixed",
            Each "each", Min "min", Max "max", Cost "cost", From "from", To "to", Time "time",
            Amount "amount", Payment "payment", Last "last", Until "until",
        }
    }
}

impl TableName {
    ghost use Rattle.plant_text.specs.Words.{table_word};

    /// The word of the table, as a plant file writes it.
    #[tactic(auto, unfolding(crate::specs::Words::table_word))]
    pub fn word(self) -> &'static str
        ensures { result.now ≡ table_word self }
    {
        words! { self, TableName;
            Top "top", State "state", Utility "utility", StnUnit "unit", Task "task", Input "input",
            Output "output", Draw "draw", Run "run", Gap "gap", Receipt "receipt",
            Delivery "delivery", Outage "outage",
        }
    }
}
