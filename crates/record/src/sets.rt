// A set of servers as a byte: bit k is server k.
ghost use Rattle.std.specs.Prelude.{◌≡◌, ◌≤◌, ◌<◌};
ghost use Rattle.base.specs.Sets.{in_set, inside as is_inside, with_member, everyone as set_of_all};
ghost use Rattle.format.specs.Limits.{most_servers_limit};

// Whether server k is in the set.
pub fn has(set: u8, k: usize) -> bool
    ensures { result ≡ in_set k set }
{
    k < 8 && (set >> k) % 2 == 1
}

// Whether each member of s is in t.
pub fn inside(s: u8, t: u8) -> bool
    ensures { result ≡ is_inside s t }
{
    s & t == s
}

// The set with server k.
pub fn with_member(set: u8, k: usize) -> u8
    requires { k < most_servers_limit }
    ensures { result ≡ with_member k set }
{
    set | (1 << k)
}

// The set of all servers.
pub fn everyone(servers: u8) -> u8
    requires { servers ≤ most_servers_limit }
    ensures { result ≡ set_of_all servers }
{
    let all: u32 = 1 << servers;
    (all - 1) as u8
}
