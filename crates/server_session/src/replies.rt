// The answers to a command that is handed out.
ghost use Rattle.std.specs.Prelude.{◌≡◌, [], ◌∷◌, length};
ghost use Rattle.wire.specs.declared.Refusal.{Refusal};
ghost use Rattle.wire.specs.Steps.{settled};
ghost use Rattle.wire.specs.Put.{Put};
ghost use Rattle.reply.specs.Shape.{chip_reply};
ghost use Rattle.at_command.specs.Dialect.{kind_lines};
ghost use Rattle.server_session.specs.Session.{session};
ghost use Rattle.server_session.specs.Call.{server_refusing, server_step, server_lent};
ghost use Rattle.server_session.specs.Steps.{Answered};
ghost use Rattle.server_session.specs.Replies.{line_awaited, answer_says, at_answered, reply_says, reject_says};

use crate::{Phase, ServerSession, ServerStep};
use at_command::AtKind;
use client_state::ClientState;
use reply::ReplyStyle;
use wire::Refusal;

// How long a reply of one line is.
fn text_reply_size(text: &[u8], linefeeds: bool) -> usize
    ensures { result ≡ length (chip_reply linefeeds (text.now ∷ [])) }
{
    if linefeeds {
        return text.len() + 5;
    }
    text.len() + 3
}

// An AT command's answer at the front of out. ati and device are the identity strings for ATI and AT@1.
fn put_at_answer<'a>(
    out: &mut [u8],
    kind: AtKind,
    ati: &'a [u8],
    device: &'a [u8],
    linefeeds: bool,
) -> usize
    ensures { Put out.old 0 (chip_reply linefeeds (kind_lines ati.now device.now kind)) result out.new }
{
    match kind {
        AtKind::Reset => {
            let at = client_state::put_line_ending(out, 0, linefeeds);
            let at = client_state::put_line_ending(out, at, linefeeds);
            reply::put_text_reply(out, at, ati, linefeeds)
        }
        AtKind::Set(_, _) | AtKind::Accepted => reply::put_text_reply(out, 0, b"OK", linefeeds),
        AtKind::Identity(which) => {
            let text = at_command::identity_text(ati, device, which);
            reply::put_text_reply(out, 0, text, linefeeds)
        }
        AtKind::Voltage => reply::put_text_reply(out, 0, b"12.6V", linefeeds),
        AtKind::Protocol => reply::put_text_reply(
            out,
            0,
            b"AUTO, ISO 15765-4 (CAN 11/500)",
            linefeeds,
        ),
        AtKind::ProtocolNumber => reply::put_text_reply(out, 0, b"A6", linefeeds),
        AtKind::Unknown => reply::put_text_reply(out, 0, b"?", linefeeds),
    }
}

impl ServerSession {
    // Whether an AT answer is refused.
    #[tactic(auto, unfolding(crate::specs::Replies::answer_says, wire::specs::Answer::unless))]
    fn answer_verdict(&self, ati: &[u8], device: &[u8], room: usize) -> Result<(), Refusal>
        ensures { answer_says room (session self.now) ati.now device.now ≡
            settled result (server_refusing (session self.now)) (at_answered (session self.now) ati.now device.now) }
    {
        if self.phase != Phase::AtCommand {
            return Err(Refusal::OutOfTurn);
        }
        if 32 < ati.len() || 32 < device.len() {
            return Err(Refusal::TooLong);
        }
        if wire::has_high(ati) || wire::has_high(device) {
            return Err(Refusal::NotAscii);
        }
        if room < 48 {
            return Err(Refusal::SmallBuffer);
        }
        Ok(())
    }

    // Whether a rejection is refused.
    #[tactic(auto, unfolding(crate::specs::Replies::reject_says, wire::specs::Answer::unless))]
    fn reject_verdict(&self, text: &[u8], room: usize) -> Result<(), Refusal>
        ensures { reject_says room (session self.now) text.now ≡
            settled result (server_refusing (session self.now))
            (line_awaited (session self.now).state (chip_reply (session self.now).state.linefeeds (text.now ∷ []))) }
    {
        if self.phase != Phase::ObdCommand {
            return Err(Refusal::OutOfTurn);
        }
        if 64 < text.len() {
            return Err(Refusal::TooLong);
        }
        if wire::has_high(text) {
            return Err(Refusal::NotAscii);
        }
        if room < text_reply_size(text, self.state.linefeeds_enabled) {
            return Err(Refusal::SmallBuffer);
        }
        Ok(())
    }

    // The command has been answered: with settings as they are now the next line is read.
    fn answered(mut self, state: ClientState, written: usize) -> ServerStep
        ensures { Answered state written result }
    {
        self.state = state;
        self.line.clear();
        self.phase = Phase::Reading;
        ServerStep {
            answer: Ok(Phase::Reading),
            taken: 0,
            written,
            session: self,
        }
    }

    // Nothing is done.
    fn refused(self, refusal: Refusal) -> ServerStep
        ensures { result ≡ record { answer = Err refusal; taken = 0; written = 0; session = self } }
    {
        ServerStep {
            answer: Err(refusal),
            taken: 0,
            written: 0,
            session: self,
        }
    }

    // Answers the AT command that is handed out, with the line ending that is then in force. ati and device are the identity strings for ATI and AT@1.
    pub fn answer<'a>(self, ati: &'a [u8], device: &'a [u8], out: &mut [u8]) -> ServerStep
        ensures out_after { server_step result out.new ≡ server_lent (answer_says (length out.old) (session self) ati.now device.now) out.old }
        ensures refused_unchanged { (q : Refusal) → result.answer ≡ Err q → result.session ≡ self }
    {
        if let Err(refusal) = self.answer_verdict(ati, device, out.len()) {
            return self.refused(refusal);
        }
        let handled = at_command::at_handled(self.state, self.line.as_slice());
        let linefeeds = handled.state.linefeeds_enabled;
        let written = put_at_answer(out, handled.kind, ati, device, linefeeds);
        self.answered(handled.state, written)
    }

    // Replies to the OBD command that is handed out with a line list, in the reader's settings, or with NO DATA where there are no lines. Either way the command
    // becomes the last one.
    #[tactic(auto, unfolding(crate::specs::Replies::reply_says, wire::specs::Answer::unless))]
    pub fn reply(self, list: &[u8], out: &mut [u8]) -> ServerStep
        ensures out_after { server_step result out.new ≡ server_lent (reply_says (length out.old) (session self) list.now) out.old }
        ensures refused_unchanged { (q : Refusal) → result.answer ≡ Err q → result.session ≡ self }
    {
        if self.phase != Phase::ObdCommand {
            return self.refused(Refusal::OutOfTurn);
        }
        let style = ReplyStyle {
            linefeeds: self.state.linefeeds_enabled,
            spaces: self.state.spaces_enabled,
            headers: self.state.headers_enabled,
        };
        match reply::write_reply(list, style, out) {
            Ok(size) => {
                let state = self.state.with_last(self.line.as_slice());
                self.answered(state, size)
            }
            Err(refusal) => self.refused(refusal),
        }
    }

    // Rejects the OBD command that is handed out with a line of text, as `?` or UNABLE TO CONNECT. The last command remains.
    pub fn reject(self, text: &[u8], out: &mut [u8]) -> ServerStep
        ensures out_after { server_step result out.new ≡ server_lent (reject_says (length out.old) (session self) text.now) out.old }
        ensures refused_unchanged { (q : Refusal) → result.answer ≡ Err q → result.session ≡ self }
    {
        if let Err(refusal) = self.reject_verdict(text, out.len()) {
            return self.refused(refusal);
        }
        let written = reply::put_text_reply(out, 0, text, self.state.linefeeds_enabled);
        self.answered(self.state, written)
    }
}
