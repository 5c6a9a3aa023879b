//! How long is waited, and how often something comes.
ghost use Rattle.std.specs.Prelude.{◌≡◌};
ghost use Rattle.timers.specs.Defaults.{default_settings, default_client_settings};

/// How long a server waits, and how often it does something, in milliseconds. Each number is
/// allowed. Where 0 stands, it comes at each item of time.
#[derive(Clone, Copy, Debug, PartialEq, Eq)]
pub struct Settings {
    /// The least that it waits to hear of a leader before it stands for election. 1,000 is the
    /// heartbeat timeout of Nomad's Raft library. (Raft, extended version 2014, section 5.6: much
    /// longer than a beat's way.)
    pub least_wait: u16,
    /// The most that a wait may be longer than that, drawn anew for each. As much again is what
    /// Nomad's Raft library draws. (Raft, extended version 2014, section 5.2: split votes are rare
    /// where waits are random.)
    pub more_wait: u16,
    /// How often a leader is heard of, whatever there is to send. 100 is the least pause of Nomad's
    /// Raft library, a tenth of its heartbeat timeout.
    pub beat: u32,
    /// How often a server that has idle workers asks for an evaluation. Nomad's workers wait at the
    /// leader in place of this; 20 is their first pause after a failure.
    pub take: u32,
    /// How often the plan that goes first is judged. Nomad's leader judges each as it comes, so 0.
    pub plan: u32,
    /// How often a blocked evaluation that has room becomes pending. Nomad's leader does that as
    /// room comes, so 0.
    pub free: u32,
    /// How often an evaluation that was given out too often is given up. Nomad's leader waits for
    /// one; 1,000 is this project's own.
    pub reap: u32,
    /// How often a snapshot takes the place of what is applied. 120,000 is how often Nomad's Raft
    /// library looks whether it should.
    pub compact: u32,
    /// How often a leader looks at deliveries and nodes: a drain has a turn then, and what was
    /// waited for long enough is seen. 250 is this project's own: it takes time of the state.
    pub look: u32,
    /// How long a node may be unheard of before it expires. 20,000 is Nomad's `min_heartbeat_ttl`
    /// and `heartbeat_grace`, of 10,000 each. (Nomad documentation, "server" block of the agent
    /// configuration.)
    pub expire: u32,
    /// How long a worker may keep an evaluation before it is given to another: 60,000 is Nomad's.
    pub lapse: u32,
}

/// How often a client does something, in milliseconds. Where 0 stands, it comes at each item of
/// time.
#[derive(Clone, Copy, Debug, PartialEq, Eq)]
pub struct ClientSettings {
    /// How often it registers, also where it is registered: a node that went down comes back so, and
    /// what would change nothing is not appended. 5,000 is this project's own.
    pub register: u32,
    /// How often it sends a heartbeat. 5,000 is half of Nomad's `min_heartbeat_ttl`, so that one
    /// may be lost.
    pub ping: u32,
    /// How often it asks what it is to run. Nomad's clients wait for a change at the server; 500 is
    /// this project's own.
    pub pull: u32,
}

impl Settings {
    /// Those that are said at each.
    pub const fn standard() -> Settings
        ensures { result ≡ default_settings }
    {
        Settings {
            least_wait: 1_000,
            more_wait: 1_000,
            beat: 100,
            take: 20,
            plan: 0,
            free: 0,
            reap: 1_000,
            compact: 120_000,
            look: 250,
            expire: 20_000,
            lapse: 60_000,
        }
    }
}

impl ClientSettings {
    /// Those that are said at each.
    pub const fn standard() -> ClientSettings
        ensures { result ≡ default_client_settings }
    {
        ClientSettings {
            register: 5_000,
            ping: 5_000,
            pull: 500,
        }
    }
}
