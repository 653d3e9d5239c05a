//! The settings of runs, taken from the options of a command line.

ghost use Rattle.std.specs.Prelude.{◌≡◌, if◌then◌else◌};
ghost use Rattle.command_line.specs.Options.{AreOptions};

use command_line::Options;
use event_loop::Plan;
use frames::WorkerNumber;
use runs::{CoordinatorPlan, Order, WorkerPlan};

/// The settings of a coordinator that runs in rounds, taken from the options.
pub(crate) fn coordinator_plan(options: &Options) -> CoordinatorPlan
    ensures workers { result.workers ≡ options.now.workers }
    ensures limit { result.limit ≡ options.now.limit }
    ensures session { result.session ≡ options.now.session }
    ensures defs { result.defs ≡ options.now.defs }
{
    CoordinatorPlan {
        workers: options.workers,
        limit: options.limit,
        session: options.session,
        defs: options.defs,
    }
}

/// The settings of a coordinator whose links come and go, taken from the options.
pub(crate) fn service_plan(options: &Options) -> Plan
    ensures workers { result.workers ≡ options.now.workers }
    ensures limit { result.limit ≡ options.now.limit }
    ensures session { result.session ≡ options.now.session }
    ensures defs { result.defs ≡ options.now.defs }
    ensures patience { result.patience ≡ options.now.patience }
{
    Plan {
        workers: options.workers,
        limit: options.limit,
        session: options.session,
        defs: options.defs,
        patience: options.patience,
    }
}

/// The settings of a worker's run, taken from the options.
pub(crate) fn worker_plan(options: &Options) -> WorkerPlan
    requires { AreOptions options.now }
    ensures number { result.number ≡ options.now.number }
    ensures incarnation { result.incarnation ≡ options.now.incarnation }
    ensures defs { result.defs ≡ options.now.defs }
    ensures order { result.order ≡ (if options.now.ahead then Order.SendThenWork else Order.WorkThenSend) }
{
    WorkerPlan {
        number: WorkerNumber::new(options.number),
        incarnation: options.incarnation,
        defs: options.defs,
        order: if options.ahead {
            Order::SendThenWork
        } else {
            Order::WorkThenSend
        },
    }
}
