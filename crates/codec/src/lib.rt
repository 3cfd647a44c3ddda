// The mailbox's messages: which command a code names, a request judged against its command's field list
// (refusals 3 to 6), its fields read, and a response written by its list. The field lists are in
// `specs/Fields`, the refusals in `specs/Request`, the laws for callers in `proofs/Laws`. It rests on
// `chksum`, `endian` and `refusal`, and below them on `laws`.
#![tactic(auto)]

ghost use Rattle.std.specs.Prelude.{◌≡◌, ◌+◌, ◌*◌, ◌≤◌, ◌<◌, length, take};
ghost use Rattle.laws.specs.Put.{Put};
ghost use Rattle.refusal.specs.Refusals.{judged};
ghost use Rattle.codec.specs.Fields.{command_of, Partition, HpkeHandle, asked, answered, length_of, request_fields, response_fields};
ghost use Rattle.codec.specs.Fields.{number_at, mek_at, TimeoutIn, TagIn, written, three_numbers, two_numbers, one_number, no_numbers, response_in, least_room};
ghost use Rattle.codec.specs.Request.{request_tests};

use refusal::Refusal;

// The commands that the mailbox knows, and any other code.
// Kept with a case for any other code, not by TryFrom: refusals 1 and 2 are judged before 3 (`mailbox_tests`).
#[derive(Clone, Copy, PartialEq, Eq)]
pub enum Command {
    Clkc,
    Klod,
    Kunl,
    Fers,
    Fsta,
    Ehdl,
    Rhpk,
    Unknown,
}

const CLKC: u32 = 0x434C_4B43;

const KLOD: u32 = 0x4B4C_4F44;

const KUNL: u32 = 0x4B55_4E4C;

const FERS: u32 = 0x4645_5253;

const FSTA: u32 = 0x4653_5441;

const EHDL: u32 = 0x4548_444C;

const RHPK: u32 = 0x5248_504B;

// Where a request's fields begin. Every request has the first two; CLKC, KLOD and KUNL have the
// timeout, KLOD and KUNL the tag, at the same places; FERS has the partition where they have the
// timeout, RHPK the handle.
const CHKSUM: usize = 0;

const RESERVED: usize = 4;

const CMD_TIMEOUT: usize = 8;

const PARTITION: usize = 8;

const HPKE_HANDLE: usize = 8;

const TAG_LOW: usize = 12;

const TAG_HIGH: usize = 16;

const MEK: usize = 20;

const MEK_END: usize = 84;

// Where a response's fields after chksum begin.
const FIPS_STATUS: usize = 4;

// The command that a code names.
impl From<u32> for Command {
    ghost from_gives = { λ code command. command ≡ command_of code };

    fn from(code: u32) -> Command {
        match code {
            CLKC => Command::Clkc,
            KLOD => Command::Klod,
            KUNL => Command::Kunl,
            FERS => Command::Fers,
            FSTA => Command::Fsta,
            EHDL => Command::Ehdl,
            RHPK => Command::Rhpk,
            _ => Command::Unknown,
        }
    }
}

// The bytes of a command's request after reserved.
fn asked_bytes(command: Command) -> usize
    ensures { (result ≡ length_of (asked command)) × (result ≤ 76) }
{
    match command {
        Command::Clkc | Command::Fers | Command::Rhpk => 4,
        Command::Klod => 76,
        Command::Kunl => 12,
        _ => 0,
    }
}

// Whether a request may be carried out, by itself: the lowest of the refusals 3 to 6 that applies.
#[tactic(auto, unfolding(crate::specs::Request::request_tests))]
pub fn check_request(command: Command, code: u32, request: &[u8]) -> Result<(), Refusal>
    ensures { result ≡ judged (request_tests command code request.now) }
{
    if command == Command::Unknown {
        return Err(Refusal::UnknownCode);
    }
    if request.len() != CMD_TIMEOUT + asked_bytes(command) {
        return Err(Refusal::WrongLength);
    }
    if endian::u32_at(request, CHKSUM) != chksum::request_sum(code, request) {
        return Err(Refusal::WrongChksum);
    }
    if endian::u32_at(request, RESERVED) != 0 {
        return Err(Refusal::ReservedNotZero);
    }
    Ok(())
}

// The timeout in a request, by the list of every command that has one.
// Kept apart from the next two, which read there too: each promises a field of its own by its own lists.
pub fn timeout_of(request: &[u8]) -> u32
    ensures { TimeoutIn request.now result }
{
    endian::u32_at(request, CMD_TIMEOUT)
}

// The partition in a request of FERS.
pub fn partition_of(request: &[u8]) -> u32
    ensures { result ≡ number_at (request_fields Command.Fers) Partition request.now }
{
    endian::u32_at(request, PARTITION)
}

// The handle in a request of RHPK.
pub fn handle_of(request: &[u8]) -> u32
    ensures { result ≡ number_at (request_fields Command.Rhpk) HpkeHandle request.now }
{
    endian::u32_at(request, HPKE_HANDLE)
}

// The tag in a request, by the list of every command that has one.
pub fn tag_of(request: &[u8]) -> u64
    ensures { TagIn request.now result }
{
    let low = endian::u32_at(request, TAG_LOW);
    let high = endian::u32_at(request, TAG_HIGH);
    u64::from(low) + (u64::from(high) << 32)
}

// The MEK bytes in a request of KLOD.
pub fn mek_of<'a>(request: &'a [u8]) -> &'a [u8]
    requires { length request.now ≡ length_of (request_fields Command.Klod) }
    ensures { result.now ≡ mek_at (request_fields Command.Klod) request.now }
{
    &request[MEK..MEK_END]
}

// The least response buffer, in which every response has room.
pub const LEAST_ROOM: usize = 40;

// The numbers of a response, in the order of its fields after reserved; those past its list are not
// written.
pub type Numbers = [u32; 7];

// Numbers of a response: three, two, one, none; the rest are 0.
pub fn three_numbers(first: u32, second: u32, third: u32) -> Numbers
    ensures { result ≡ three_numbers first second third }
{
    [first, second, third, 0, 0, 0, 0]
}

pub fn two_numbers(first: u32, second: u32) -> Numbers
    ensures { result ≡ two_numbers first second }
{
    three_numbers(first, second, 0)
}

pub fn one_number(first: u32) -> Numbers
    ensures { result ≡ one_number first }
{
    two_numbers(first, 0)
}

pub fn no_numbers() -> Numbers
    ensures { result ≡ no_numbers }
{
    one_number(0)
}

// The fields of a command's response after reserved. No list of handles has more than three.
fn number_count(command: Command, numbers: Numbers) -> usize
    ensures { result ≡ length (answered command numbers) }
{
    match command {
        Command::Klod | Command::Rhpk => 1,
        Command::Fers => 3,
        Command::Fsta => 2,
        Command::Ehdl => 1 + 2 * (numbers[0].min(3) as usize),
        _ => 0,
    }
}

// Writes the first `count` numbers, and answers the place past them.
// Every number is looked at, and no slice of them: a loop over `count` alone becomes a call of `memcpy`,
// a symbol that the archive may not need, and takes 16 bytes of stack more (docs/STACK.md).
fn put_numbers(out: &mut [u8], at: usize, numbers: Numbers, count: usize) -> usize
    requires { (count ≤ 7) × (at + 4 * count ≤ length out.old) }
    ensures { Put at (written (take count numbers)) out.old out.new result }
{
    let mut end = at;
    for (k, &number) in numbers.iter().enumerate() {
        if k < count {
            end = endian::put_u32(out, end, number);
        }
    }
    end
}

// Writes a command's response, and answers its length: fips_status and reserved, both 0, the command's
// own fields, then chksum.
#[tactic(auto, using(crate::proofs::Laws::written_most, crate::proofs::Laws::fits_least))]
pub fn write_response(out: &mut [u8], command: Command, numbers: Numbers) -> u32
    requires { least_room ≤ length out.old }
    ensures { (result ≡ length_of (response_fields command numbers)) × (out.new ≡ response_in command numbers out.old) }
{
    let reserved = endian::put_u32(out, FIPS_STATUS, 0);
    let at = endian::put_u32(out, reserved, 0);
    let count = number_count(command, numbers);
    let end = put_numbers(out, at, numbers, count);
    chksum::close(out, end);
    end as u32
}
