//! What the workers of one Hub have in common.

ghost use Rattle.std.specs.Prelude.{◌≡◌, [], true};

use crate::outlets::WorkerOutlets;
use crate::polling::Polling;
use std::alloc::Global;
use std::sync::Wait;
use urb_link::Link;
use urb_show::HouseName;
use urb_turn::{Gate, Hub, HubName, Reporter};

/// What the workers of one Hub have in common.
#[derive(Drop)]
pub struct WorkerSetting<'a, K: HouseName, L: HubName, N: Link, G: Gate, H: Reporter, R: Wait> {
    pub(crate) rt: &'a R,
    pub(crate) alloc: Global,
    pub(crate) hub: &'a Hub<K, L>,
    pub(crate) link: &'a N,
    pub(crate) gate: &'a G,
    pub(crate) reporter: &'a H,
    pub(crate) polling: Polling,
    /// Whether a worker feeds its node, and lets it tick early.
    pub(crate) mends: bool,
}

impl<'a, K: HouseName, L: HubName, N: Link, G: Gate, H: Reporter, R: Wait> WorkerSetting<
    'a,
    K,
    L,
    N,
    G,
    H,
    R,
> {
    /// Workers that do their tickets and nothing else: they don't feed their nodes, tick by
    /// themselves or poll their channels, but sleep until a ticket comes.
    pub fn new(
        rt: &'a R,
        alloc: Global,
        hub: &'a Hub<K, L>,
        link: &'a N,
        gate: &'a G,
        reporter: &'a H,
    ) -> WorkerSetting<'a, K, L, N, G, H, R> {
        WorkerSetting {
            rt,
            alloc,
            hub,
            link,
            gate,
            reporter,
            polling: Polling::none(),
            mends: false,
        }
    }

    /// The same workers, which also feed their nodes at their start and after each restart, and let
    /// them tick early after a tick that sent something.
    pub fn mending(self) -> WorkerSetting<'a, K, L, N, G, H, R>
        ensures mends { result.mends ≡ true }
        ensures polling { result.polling ≡ self.entry.polling }
    {
        WorkerSetting {
            mends: true,
            ..self
        }
    }

    /// Outlets for one of these workers. Nothing went through them yet.
    pub fn outlets_for_worker(&self) -> WorkerOutlets<'a, N, H>
        ensures { result ≡ [] }
    {
        WorkerOutlets::new(self.link, self.reporter)
    }
}
