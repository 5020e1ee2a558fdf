//! With what a run begins.
ghost use Rattle.std.specs.Prelude.{◌≡◌, [], Err, IfOk};
ghost use Rattle.coap_types.specs.declared.remembered.TheConstants.{DEFAULT_REMEMBERED as default_remembered};
ghost use Rattle.coap_record.specs.Events.{usual_addresses};
ghost use Rattle.coap_scripts.specs.Sims.{sim_config};
ghost use Rattle.coap_page.specs.Plains.{AreTooMany, HasNoPlains};
ghost use Rattle.coap_page.specs.Runs.{IsConfigured};

use coap_common::largest_szx;
use coap_ends::PlainRefusal;
use coap_resource::MAX_CHANGES_PER_WINDOW;
use coap_run::WorldConfig;
use coap_scripts::{ScriptRefusal, paths_of};
use coap_types::Path;
use std::alloc::Allocator;

// The word that each end begins with.
const WORD: u64 = 0;

const _: () = prove!(WORD == 0);

/// Why nothing is run.
#[derive(Clone, Copy, Debug, PartialEq, Eq)]
pub(crate) enum NoConfig {
    /// A line of the plain paths says none, or there are too many.
    Plains,
    /// An allocation was refused.
    Memory,
}

impl From<PlainRefusal> for NoConfig {
    ghost use Rattle.coap_page.specs.Plains.{of_plain};

    ghost from_gives = { λ refusal e. e ≡ of_plain refusal };

    fn from(refusal: PlainRefusal) -> NoConfig {
        match refusal {
            PlainRefusal::Full => NoConfig::Plains,
            PlainRefusal::Memory => NoConfig::Memory,
        }
    }
}

impl From<ScriptRefusal> for NoConfig {
    ghost use Rattle.coap_page.specs.Plains.{of_paths};

    ghost from_gives = { λ refusal e. e ≡ of_paths refusal };

    fn from(refusal: ScriptRefusal) -> NoConfig {
        match refusal {
            ScriptRefusal::Line(_) => NoConfig::Plains,
            ScriptRefusal::Memory => NoConfig::Memory,
        }
    }
}

// With what a run begins, where no path is plain.
fn usual_config<A: Allocator + Copy>(alloc: A) -> WorldConfig<A>
    ensures { result ≡ sim_config usual_addresses default_remembered [] }
{
    let szx = largest_szx();
    match WorldConfig::new(alloc, WORD, WORD, szx, szx, MAX_CHANGES_PER_WINDOW) {
        Some(config) => config,
        None => unreachable!(),
    }
}

// With what a run begins, where these paths are plain.
fn config_with<A: Allocator + Copy>(
    alloc: A,
    plains: &[Path<A>],
) -> Result<WorldConfig<A>, NoConfig>
    ensures ok { IfOk result (λ config. config ≡ sim_config usual_addresses default_remembered plains.now) }
    ensures many { result ≡ Err NoConfig.Plains → AreTooMany plains.now }
{
    let mut config = usual_config(alloc);
    for path in plains {
        config.plain(path)?;
    }
    Ok(config)
}

/// With what a run begins, where the paths of a text are plain, one a line.
pub(crate) fn config_of<A: Allocator + Copy>(
    alloc: A,
    plains: &[u8],
) -> Result<WorldConfig<A>, NoConfig>
    ensures ok { IfOk result (IsConfigured plains.now) }
    ensures none { result ≡ Err NoConfig.Plains → HasNoPlains plains.now }
{
    let paths = paths_of(alloc, plains)?;
    config_with(alloc, paths.as_slice())
}
