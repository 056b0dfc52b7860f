//! What the arguments ask for.

/// Which register is served, and where.
#[derive(Clone, Copy, Debug, PartialEq, Eq)]
pub struct Service<'a> {
    /// The path of the register's file.
    pub file: &'a str,
    /// The text of the address at which clients come.
    pub address: &'a str,
    /// The path of the socket at which the land office comes.
    pub office: &'a str,
    /// Whether a line is written for each reply.
    pub logs: bool,
    /// Whether the chain of the commands is kept.
    pub chains: bool,
}

/// What the program is to do.
#[derive(Clone, Copy, Debug, PartialEq, Eq)]
pub enum Invocation<'a> {
    /// Print the usage.
    Help,
    /// Print the version.
    Version,
    /// Serve.
    Serve(Service<'a>),
    /// Print the journal of the register in the file at this path.
    Journal(&'a str),
    /// Print what the register in the file at this path would answer to lines.
    Check(&'a str),
}

impl<'a> Invocation<'a> {
    ghost use Rattle.std.specs.Prelude.{◌≡◌, map, string_bytes};
    ghost use Rattle.cadastred_run.specs.Invocations.{command_line_of, command_line, both_options_of, option_of, service_option_of};

    /// The invocation of a command line, which begins with the program's name.
    pub fn of_words(words: &'a [String]) -> Option<Invocation<'a>>
        ensures { command_line result ≡ command_line_of (map (λ word. string_bytes word) words.now) }
    {
        match words {
            [_, option] => Invocation::of_option(option.as_str()),
            [_, option, file] if option.as_str() == "--journal" => Some(Invocation::Journal(
                file.as_str(),
            )),
            [_, option, file] if option.as_str() == "--check" => Some(Invocation::Check(
                file.as_str(),
            )),
            [_, file, address, office] => Some(Invocation::Serve(Service {
                file: file.as_str(),
                address: address.as_str(),
                office: office.as_str(),
                logs: false,
                chains: false,
            })),
            [_, option, file, address, office] => Invocation::of_service(
                option.as_str(),
                file.as_str(),
                address.as_str(),
                office.as_str(),
            ),
            [_, first, second, file, address, office] => Invocation::of_both(
                first.as_str(),
                second.as_str(),
                file.as_str(),
                address.as_str(),
                office.as_str(),
            ),
            _ => None,
        }
    }

    /// The invocation of two options and the words of a service.
    fn of_both(
        first: &str,
        second: &str,
        file: &'a str,
        address: &'a str,
        office: &'a str,
    ) -> Option<Invocation<'a>>
        ensures { command_line result ≡ both_options_of first.now second.now file.now address.now office.now }
    {
        if first == "--chain" && second == "--log" {
            Some(Invocation::Serve(Service {
                file,
                address,
                office,
                logs: true,
                chains: true,
            }))
        } else {
            None
        }
    }

    /// The invocation of an option and the words of a service.
    fn of_service(
        option: &str,
        file: &'a str,
        address: &'a str,
        office: &'a str,
    ) -> Option<Invocation<'a>>
        ensures { command_line result ≡ service_option_of option.now file.now address.now office.now }
    {
        match option {
            "--log" => Some(Invocation::Serve(Service {
                file,
                address,
                office,
                logs: true,
                chains: false,
            })),
            "--chain" => Some(Invocation::Serve(Service {
                file,
                address,
                office,
                logs: false,
                chains: true,
            })),
            _ => None,
        }
    }

    /// The invocation of one word after the program's name.
    fn of_option(option: &str) -> Option<Invocation<'a>>
        ensures { command_line result ≡ option_of option.now }
    {
        match option {
            "--help" => Some(Invocation::Help),
            "--version" => Some(Invocation::Version),
            _ => None,
        }
    }
}
