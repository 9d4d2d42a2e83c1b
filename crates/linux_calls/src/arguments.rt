//! A call's number and its arguments, in x8 and in x0 to x5.
ghost use Rattle.std.specs.Prelude.{◌≡◌, ◌<◌, ◌%◌};
ghost use Rattle.emu_system.specs.SystemCall as model;
ghost use Rattle.linux_calls.specs.Names.{HasNumber};

use core_regs::Core;
use emu_bits::Reg;
use emu_system::CallName;

/// The argument in register x0 to x7.
pub fn argument(core: &Core, number: u32) -> u64
    requires { number < 8 }
    ensures { result ≡ model.call_argument core.now number }
{
    core.x(Reg::at(number, 0))
}

/// The number of the file that a call names.
pub fn file_of(core: &Core) -> u64
    ensures { result ≡ model.file_of core.now }
{
    argument(core, 0) % 0x1_0000_0000
}

/// The call whose number is in x8.
pub fn name_of_call(core: &Core) -> CallName
    ensures name { result ≡ model.name_of_call core.now }
    ensures number { HasNumber result (model.number_of_call core.now) }
{
    call_name(core.x(Reg::at(8, 0)) % 0x1_0000_0000)
}

/// The call of a number.
fn call_name(number: u64) -> CallName
    ensures name { result ≡ model.call_name number }
    ensures number { HasNumber result number }
{
    match number {
        29 => CallName::Ioctl,
        63 => CallName::Read,
        64 => CallName::Write,
        65 => CallName::Readv,
        66 => CallName::Writev,
        93 => CallName::Exit,
        94 => CallName::ExitGroup,
        96 => CallName::SetTidAddress,
        167 => CallName::Prctl,
        172 => CallName::Getpid,
        173 => CallName::Getppid,
        174 => CallName::Getuid,
        175 => CallName::Geteuid,
        176 => CallName::Getgid,
        177 => CallName::Getegid,
        178 => CallName::Gettid,
        214 => CallName::Brk,
        215 => CallName::Munmap,
        222 => CallName::Mmap,
        226 => CallName::Mprotect,
        _ => CallName::Unknown,
    }
}
