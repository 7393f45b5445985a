// The table at the start.
ghost use Rattle.std.specs.Prelude.{◌≡◌};
ghost use Rattle.replay_servers.specs.Starting.{fresh_of, fresh_table};

use crate::{SERVERS, STATE_ROOM, Server};
use image::start;

// "a store never written holds the start"; zeros where there is no such server.
fn fresh(servers: u8, quota: u16, me: u32) -> Server
    ensures { result ≡ fresh_of servers quota me }
{
    let mut state: [u8; STATE_ROOM] = [0; STATE_ROOM];
    let _ = start(&mut state, u32::from(servers), u32::from(quota), me);
    Server {
        state,
        store: state,
    }
}

// Every server at its start.
pub fn begin(servers: u8, quota: u16) -> [Server; SERVERS]
    ensures { result ≡ fresh_table servers quota }
{
    [
        fresh(servers, quota, 0),
        fresh(servers, quota, 1),
        fresh(servers, quota, 2),
        fresh(servers, quota, 3),
    ]
}
