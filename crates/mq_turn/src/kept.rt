//! A value that keeps its history.
ghost use Rattle.std.specs.Prelude.{◌≡◌, ◌≢◌, ℕ, List, [], ◌++◌, length};
ghost use Rattle.std.specs.List.{All};
ghost use Rattle.mq_turn.specs.History.{Adds};

/// A value that keeps its history: the list of what it was asked and answered. Each entry names the number of who asked.
pub trait Kept: Drop {
    type Ask;

    type Answer;

    type Entry;

    type Settings;

    /// What it was made with.
    ghost settings: { Self → Self.Settings };

    ghost history: { Self → List Self.Entry };

    /// Who asks.
    ghost asker: { Self.Ask → ℕ };

    /// Who asked what this entry is of.
    ghost maker: { Self.Entry → ℕ };

    /// The histories that values with such settings keep.
    ghost is_sound: { Self.Settings → List Self.Entry → Type 0 };

    /// What an ask needs of the settings and the history.
    ghost may_ask: { Self.Settings → List Self.Entry → Self.Ask → Type 0 };

    /// What is answered to an ask after a history, and the history then.
    ghost serves: { Self.Settings → List Self.Entry → Self.Ask → Self.Answer → List Self.Entry → Type 0 };

    /// Answers, and adds at most one entry, of who asks.
    fn serve(&mut self, ask: Self::Ask) -> Self::Answer
        requires { may_ask (settings self.old) (history self.old) ask }
        ensures serves { serves (settings self.old) (history self.old) ask result (history self.new) }
        ensures adds { Adds maker (asker ask) (history self.old) (history self.new) }
        ensures settings { settings self.new ≡ settings self.old }
        ensures sound { is_sound (settings self.old) (history self.old) → is_sound (settings self.old) (history self.new) };

    /// How many entries there are.
    fn entries(&self) -> u32
        ensures { result ≡ length (history self.now) };

    /// A value without an entry is sound.
    ghost begins_sound: { (s : Self.Settings) → is_sound s [] };

    /// What an ask needs it has still when others have added entries.
    ghost stays_asked: { (s : Self.Settings) (h more : List Self.Entry) (ask : Self.Ask) → is_sound s (h ++ more)
        → All (λ e. maker e ≢ asker ask) more → may_ask s h ask → may_ask s (h ++ more) ask };
}
