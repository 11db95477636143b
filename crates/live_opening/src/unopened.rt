//! Why there is no board to start from.

ghost use Rattle.std.specs.Prelude.{◌≡◌};
ghost use Rattle.live_opening.specs.Opened.{number_of_unopened};

use apply_core::{ResumeFault, RunRefusal};
use filter_rule::{Plan, PlanFault};
use source_feed::FeedFault;
use std::sync::Arc;

/// Why there is no board to start from. Want of memory (72) is a fault of what was looked at then.
#[derive(Drop)]
pub enum Unopened {
    /// The workflow file.
    Workflow(PlanFault),
    /// There aren't as many feeds as streams (119).
    FeedCount,
    /// What has come of the first feed that is at fault.
    Feed(FeedFault),
    /// The checkpoint; its line names tables of the plan.
    Checkpoint {
        /// the first plan
        plan: Arc<Plan>,
        /// why it isn't resumed
        fault: ResumeFault,
    },
    /// The streams' run; its line names tables of the plan.
    Stream {
        /// the first plan
        plan: Arc<Plan>,
        /// the refusal
        refusal: RunRefusal,
    },
}

impl Unopened {
    /// The refusal's number.
    pub fn number(&self) -> u8
        ensures { result ≡ number_of_unopened self.now }
    {
        match self {
            Unopened::Workflow(fault) => fault.number(),
            Unopened::FeedCount => 119,
            Unopened::Feed(fault) => fault.number(),
            Unopened::Checkpoint { fault, .. } => fault.number(),
            Unopened::Stream { refusal, .. } => refusal.number(),
        }
    }
}

impl From<FeedFault> for Unopened {
    ghost use Rattle.std.specs.Prelude.{◌≡◌};
    ghost use Rattle.live_opening.specs.declared.unopened.Unopened.TheVariants.{Feed};

    ghost from_gives = { λ fault refusal. refusal ≡ Feed fault };

    fn from(fault: FeedFault) -> Unopened {
        Unopened::Feed(fault)
    }
}

impl From<PlanFault> for Unopened {
    ghost use Rattle.std.specs.Prelude.{◌≡◌};
    ghost use Rattle.live_opening.specs.declared.unopened.Unopened.TheVariants.{Workflow};

    ghost from_gives = { λ fault refusal. refusal ≡ Workflow fault };

    fn from(fault: PlanFault) -> Unopened {
        Unopened::Workflow(fault)
    }
}
