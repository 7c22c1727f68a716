//! The silence of the other side.
ghost use Rattle.std.specs.Prelude.{◌≡◌, ◌≤◌, ◌+◌, ◌<◌, true, false};
ghost use Rattle.moo_cli_web_frames.specs.Silence.{silence_from};

/// The seconds of silence after which the other side is asked whether it is there, and asked again.
pub const PING_SECONDS: u64 = 30;

/// The seconds of silence after which the other side is taken to be gone.
pub const GONE_SECONDS: u64 = 90;

/// What is to be done about a silent side.
#[derive(Clone, Copy, Debug, PartialEq, Eq)]
pub enum Due {
    /// Nothing is to be done.
    Nothing,
    /// A ping is to be sent.
    Ping,
    /// The channel is to end.
    End,
}

/// How long nothing has come.
#[derive(Clone, Copy, Debug)]
pub struct Silence {
    /// The second since which nothing came, if `has_heard` is false.
    pub(crate) since: u64,
    /// The second of the last ping, or `since`.
    pub(crate) asked: u64,
    /// Whether something came since the last look.
    pub(crate) has_heard: bool,
}

impl Silence {
    /// Returns the silence that begins at this second.
    pub fn new(second: u64) -> Silence
        ensures { result ≡ silence_from second }
    {
        Silence {
            since: second,
            asked: second,
            has_heard: false,
        }
    }

    /// Records that something came.
    pub fn hear(&mut self)
        ensures { self.new ≡ record self.old { has_heard = true } }
    {
        self.has_heard = true;
    }

    /// Returns what is to be done at this second, and takes a ping as sent. Does nothing if something came since the last look.
    pub fn due(&mut self, now: u64) -> Due
        ensures end { result ≡ Due.End → (self.old.has_heard ≡ false) × (self.old.since + 90 ≤ now) }
        ensures ping { result ≡ Due.Ping → (self.old.has_heard ≡ false) × (self.old.asked + 30 ≤ now) × (now < self.old.since + 90) × (self.new ≡ record self.old { asked = now }) }
        ensures nothing { result ≡ Due.Nothing → self.old.has_heard ≡ false → (now < self.old.since + 90) × (now < self.old.asked + 30) × (self.new ≡ self.old) }
        ensures since { self.old.has_heard ≡ false → self.new.since ≡ self.old.since }
        ensures heard { self.old.has_heard ≡ true → (result ≡ Due.Nothing) × (self.new ≡ silence_from now) }
    {
        if self.has_heard {
            *self = Silence::new(now);
            return Due::Nothing;
        }
        if now.saturating_sub(self.since) >= GONE_SECONDS {
            return Due::End;
        }
        if now.saturating_sub(self.asked) >= PING_SECONDS {
            self.asked = now;
            return Due::Ping;
        }
        Due::Nothing
    }
}
