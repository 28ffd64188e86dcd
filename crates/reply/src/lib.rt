// Replies: a response or an event written to a buffer, and the next message.
#![tactic(auto)]

ghost use Rattle.std.specs.Prelude.{◌≡◌, ◌≤◌, leb, length};
ghost use Rattle.basics.specs.Words.{zeros};
ghost use Rattle.reply.specs.Replies.{code_of, has_payload, response, event, replied};
ghost use Rattle.reply.specs.Message.{holds, next_message, next_from};

use packet::Command;

// Fills a buffer with zeros to its end.
#[tactic(auto, unfolding(basics::specs::Words::zeros))]
pub fn clear(buffer: &mut [u8])
    ensures { buffer.new ≡ zeros (length buffer.old) }
{
    buffer.fill(0)
}

// Has the response to this command a payload byte?
fn has_payload(command: Command) -> bool
    ensures { result ≡ has_payload command }
{
    matches!(command, Command::GetState | Command::StoreUsrKey)
}

// Writes a message, and zeros to the buffer's end. A buffer under `least` bytes gets zeros alone.
pub fn put(buffer: &mut [u8], least: usize, message: &[u8]) -> bool
    requires { length message.now ≤ least }
    ensures value { result ≡ leb least (length buffer.old) }
    ensures buffer_after { buffer.new ≡ replied least (length buffer.old) message.now }
{
    clear(buffer);
    if buffer.len() < least {
        return false;
    }
    buffer[..message.len()].copy_from_slice(message);
    true
}

// Writes the response to a command, and zeros to the buffer's end. A buffer under 8 bytes gets zeros alone.
pub fn write_response(reply: &mut [u8], command: Command, status: u8, payload: u8) -> bool
    ensures value { result ≡ leb 8 (length reply.old) }
    ensures reply_after { reply.new ≡ replied 8 (length reply.old) (response command status payload) }
{
    let [low, high] = u16::from(command).to_le_bytes();
    // with no payload the eighth byte is the first of the zeros: so one message serves for both lengths, which takes less time than two
    let mut length = 4;
    let mut last = 0;
    if has_payload(command) {
        length = 5;
        last = payload;
    }
    put(
        reply,
        8,
        &[0x11, 0x0E, length, 0xFF, low, high, status, last],
    )
}

// The event's code.
fn code_of(stack: bool) -> u8
    ensures { result ≡ code_of stack }
{
    !stack as u8
}

// Writes the event that tells which program runs, and zeros to the buffer's end. A buffer under 6 bytes gets zeros alone.
pub fn write_event(buffer: &mut [u8], stack: bool) -> bool
    ensures value { result ≡ leb 6 (length buffer.old) }
    ensures buffer_after { buffer.new ≡ replied 6 (length buffer.old) (event stack) }
{
    let code = code_of(stack);
    let message = [0x12, 0xFF, 0x03, 0x00, 0x92, code];
    put(buffer, 6, &message)
}

// Whether the buffer has n bytes or more and begins with the three given.
fn begins(s: &[u8], n: usize, a: u8, b: u8, c: u8) -> bool
    requires { 3 ≤ n }
    ensures { result ≡ holds s.now n a b c }
{
    n <= s.len() && s.starts_with(&[a, b, c])
}

// The next message of the two reply buffers: the event, else the response, else an empty part of the response buffer.
pub fn next_message<'a>(event: &'a [u8], response: &'a [u8]) -> &'a [u8]
    ensures bytes { result.now ≡ next_message event.now response.now }
    ensures place { result.ref_ptr ≡ next_from event.now event.entry.ref_ptr response.entry.ref_ptr }
{
    if begins(event, 6, 0x12, 0xFF, 0x03) {
        return &event[..6];
    }
    if begins(response, 7, 0x11, 0x0E, 4) {
        return &response[..7];
    }
    if begins(response, 8, 0x11, 0x0E, 5) {
        return &response[..8];
    }
    &response[..0]
}
