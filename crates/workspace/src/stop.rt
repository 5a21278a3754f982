// Why a statement isn't carried out.
use crate::refusal::Refusal;
use bouquet_file::OpenFault;
use cost_model::Stale;
use csv_load::LoadFault;
use db_catalog::DbFault;
use ess_grid::GridFault;
use query_block::ValueFault;
use sql_bind::BindFault;
use sql_values::LimitName;
use std::alloc::AllocError;
use table_stats::StatsFault;

/// Why a statement isn't carried out.
#[derive(Drop)]
pub enum Stop {
    /// It is refused.
    Refused(Refusal),
    /// Out of memory.
    NoMemory,
}

impl From<AllocError> for Stop {
    ghost use Rattle.std.specs.Prelude.{◌≡◌};
    ghost use Rattle.workspace.specs.declared.stop.Stop.TheVariants.{NoMemory};

    ghost from_gives = { λ _ stop. stop ≡ NoMemory };

    fn from(_: AllocError) -> Stop {
        Stop::NoMemory
    }
}

impl From<DbFault> for Stop {
    ghost use Rattle.workspace.specs.Stop.{TellsFault};
    ghost use Rattle.db_catalog.specs.declared.fault.DbFault.TheVariants as change;
    ghost use Rattle.workspace.specs.declared.refusal.Refusal.TheVariants as refusal;

    ghost from_gives = { TellsFault change.NoMemory refusal.NotMade };

    fn from(fault: DbFault) -> Stop {
        match fault {
            DbFault::NoMemory => Stop::NoMemory,
            fault => Stop::Refused(Refusal::NotMade(fault)),
        }
    }
}

impl From<LoadFault> for Stop {
    ghost use Rattle.workspace.specs.Stop.{TellsFault};
    ghost use Rattle.csv_load.specs.declared.fault.LoadFault.TheVariants as load;
    ghost use Rattle.workspace.specs.declared.refusal.Refusal.TheVariants as refusal;

    ghost from_gives = { TellsFault load.NoMemory refusal.NotLoaded };

    fn from(fault: LoadFault) -> Stop {
        match fault {
            LoadFault::NoMemory => Stop::NoMemory,
            fault => Stop::Refused(Refusal::NotLoaded(fault)),
        }
    }
}

impl From<BindFault> for Stop {
    ghost use Rattle.workspace.specs.Stop.{TellsFault};
    ghost use Rattle.sql_bind.specs.declared.fault.BindFault.TheVariants as bind;
    ghost use Rattle.workspace.specs.declared.refusal.Refusal.TheVariants as refusal;

    ghost from_gives = { TellsFault bind.NoMemory refusal.NotBound };

    fn from(fault: BindFault) -> Stop {
        match fault {
            BindFault::NoMemory => Stop::NoMemory,
            fault => Stop::Refused(Refusal::NotBound(fault)),
        }
    }
}

impl From<OpenFault> for Stop {
    ghost use Rattle.workspace.specs.Stop.{TellsFault};
    ghost use Rattle.bouquet_file.specs.declared.fault.OpenFault.TheVariants as opening;
    ghost use Rattle.workspace.specs.declared.refusal.Refusal.TheVariants as refusal;

    ghost from_gives = { TellsFault opening.NoMemory refusal.NotOpened };

    fn from(fault: OpenFault) -> Stop {
        match fault {
            OpenFault::NoMemory => Stop::NoMemory,
            fault => Stop::Refused(Refusal::NotOpened(fault)),
        }
    }
}

impl From<Refusal> for Stop {
    ghost use Rattle.std.specs.Prelude.{◌≡◌};
    ghost use Rattle.workspace.specs.declared.stop.Stop.TheVariants.{Refused};

    ghost from_gives = { λ refusal stop. stop ≡ Refused refusal };

    fn from(refusal: Refusal) -> Stop {
        Stop::Refused(refusal)
    }
}

impl From<GridFault> for Stop {
    ghost use Rattle.std.specs.Prelude.{◌≡◌};
    ghost use Rattle.workspace.specs.Stop.{stop_of_grid};

    ghost from_gives = { λ fault stop. stop ≡ stop_of_grid fault };

    fn from(fault: GridFault) -> Stop {
        match fault {
            GridFault::BadLevels { given } => {
                Stop::Refused(Refusal::PastLimit(LimitName::Levels, u128::from(given)))
            }
            GridFault::TooManyPoints { points } => {
                Stop::Refused(Refusal::PastLimit(LimitName::Points, u128::from(points)))
            }
        }
    }
}

impl From<StatsFault> for Stop {
    ghost use Rattle.std.specs.Prelude.{◌≡◌};
    ghost use Rattle.workspace.specs.Stop.{stop_of_counts};

    ghost from_gives = { λ fault stop. stop ≡ stop_of_counts fault };

    fn from(fault: StatsFault) -> Stop {
        match fault {
            StatsFault::ProductLimit { value } => {
                Stop::Refused(Refusal::PastLimit(LimitName::Product, value))
            }
            StatsFault::NoMemory => Stop::NoMemory,
        }
    }
}

impl From<ValueFault> for Stop {
    ghost use Rattle.std.specs.Prelude.{◌≡◌};
    ghost use Rattle.workspace.specs.declared.refusal.Refusal.TheVariants as refusal;
    ghost use Rattle.workspace.specs.declared.stop.Stop.TheVariants.{Refused};

    ghost from_gives = { λ fault stop. stop ≡ Refused (refusal.NotFitting fault) };

    fn from(fault: ValueFault) -> Stop {
        Stop::Refused(Refusal::NotFitting(fault))
    }
}

impl From<Stale> for Stop {
    ghost use Rattle.std.specs.Prelude.{◌≡◌};
    ghost use Rattle.workspace.specs.declared.refusal.Refusal.TheVariants as refusal;
    ghost use Rattle.workspace.specs.declared.stop.Stop.TheVariants.{Refused};

    ghost from_gives = { λ stale stop. stop ≡ Refused (refusal.IsStale stale) };

    fn from(stale: Stale) -> Stop {
        Stop::Refused(Refusal::IsStale(stale))
    }
}
