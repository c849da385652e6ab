//! The bytes of the SETTINGS of this server, without memory.
ghost use Rattle.std.specs.Prelude.{◌≡◌, false};
ghost use Rattle.mq_frame.specs.declared.frame.Frame.TheVariants.{Settings};
ghost use Rattle.mq_frame.specs.Writing.{spelling_of};
ghost use Rattle.mq_h2.specs.Codes.{own_settings};

/// The SETTINGS of this server.
#[tactic(auto, unfolding(mq_frame::specs::Writing::spelling_of))]
pub fn settings_text() -> [u8; 27]
    ensures { result ≡ spelling_of (Settings false own_settings) }
{
    [
        0, 0, 18, 4, 0, 0, 0, 0, 0, 0, 3, 0, 0, 0, 100, 0, 6, 0, 0, 64, 0, 0, 8, 0, 0, 0, 1,
    ]
}
