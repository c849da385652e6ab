//! The words that a line begins with.
ghost use Rattle.mq_play.specs.Lines.{IsWord, word_text};
ghost use Rattle.mq_play.specs.Settings.{IsKind, setting_word};
ghost use Rattle.mq_script.specs.Reading.{IsFound, IsPlain};
ghost use Rattle.std.specs.Prelude.{◌≡◌};

use mq_addr::Kind;
use mq_play::{SettingWord, Word};

/// The word of a setting that a text is.
fn parse_setting_word(text: &[u8]) -> Option<SettingWord>
    ensures { IsFound (λ word. text.now ≡ setting_word word) result }
{
    match text {
        b"workers" => Some(SettingWord::Workers),
        b"template" => Some(SettingWord::Template),
        b"name" => Some(SettingWord::Name),
        b"allow" => Some(SettingWord::Allow),
        b"deny" => Some(SettingWord::Deny),
        b"pool" => Some(SettingWord::Pool),
        b"reach" => Some(SettingWord::Reach),
        b"route" => Some(SettingWord::Route),
        b"host" => Some(SettingWord::Host),
        b"mtu" => Some(SettingWord::Mtu),
        b"history" => Some(SettingWord::History),
        _ => None,
    }
}

/// The word of a line that tells no setting.
fn parse_plain_word(text: &[u8]) -> Option<Word>
    ensures { IsFound (λ word. IsPlain word × (text.now ≡ word_text word)) result }
{
    match text {
        b"conn" => Some(Word::Conn),
        b"bytes" => Some(Word::Bytes),
        b"text" => Some(Word::Text),
        b"fill" => Some(Word::Fill),
        b"end" => Some(Word::End),
        b"room" => Some(Word::Room),
        b"failread" => Some(Word::FailRead),
        b"failwrite" => Some(Word::FailWrite),
        b"dgram" => Some(Word::Dgram),
        b"failport" => Some(Word::FailPort),
        b"packet" => Some(Word::Packet),
        b"step" => Some(Word::Step),
        b"run" => Some(Word::Run),
        _ => None,
    }
}

/// The word that a text is.
pub fn parse_word(text: &[u8]) -> Option<Word>
    ensures { IsFound (IsWord text.now) result }
{
    match parse_plain_word(text) {
        Some(word) => Some(word),
        None => Some(Word::Setting(parse_setting_word(text)?)),
    }
}

/// The kind of tunnels that a text names.
pub fn parse_kind(text: &[u8]) -> Option<Kind>
    ensures { IsFound (IsKind text.now) result }
{
    match text {
        b"udp" => Some(Kind::Udp),
        b"ip" => Some(Kind::Ip),
        _ => None,
    }
}
