// What the set-up record says.
ghost use Rattle.std.specs.Prelude.{◌≤◌};
ghost use Rattle.replay_servers.specs.Core.{table_servers};

// How many servers, and the quota.
#[derive(Clone, Copy, Drop)]
pub struct Setup {
    pub servers: u8,
    pub quota: u16,
    ghost few: { servers ≤ table_servers },
}
