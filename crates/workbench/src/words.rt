ghost use Rattle.std.specs.Prelude.{◌≡◌, map, string_bytes, option_map, IfSome};
ghost use Rattle.meaning.specs.Words as meaning;
ghost use Rattle.meaning.specs.Words.{limit_of, number_of};
ghost use Rattle.workbench.specs.Limits.{IsLimit};
ghost use Rattle.workbench.specs.WordsView.{invocation_view, task_view};
ghost use Rattle.workbench.specs.PlainWords.{plain_invocation, plain_task_of_one, plain_task_of_two};

/// A command with its arguments, which are names of files.
#[derive(Clone, Copy, Debug, PartialEq, Eq)]
pub enum Task<'a> {
    /// Writes the case of a bundle.
    Build {
        bundle: &'a str,
    },
    /// Writes the text of a case at a configuration.
    Derive {
        case: &'a str,
        configuration: &'a str,
    },
    /// Writes the text of a bundle's own product at a configuration.
    Product {
        bundle: &'a str,
        configuration: &'a str,
    },
}

/// What the words of a command line ask for.
#[derive(Clone, Copy, Debug, PartialEq, Eq)]
pub struct Invocation<'a> {
    pub task: Task<'a>,
    /// The most nodes that diagrams may have.
    pub node_limit: u32,
}

/// The node limit where the words give none.
pub const DEFAULT_NODE_LIMIT: u32 = 262_144;

/// The greatest node limit that the words may give.
pub const GREATEST_NODE_LIMIT: u32 = 1_048_576;

/// The invocation that the words are, the program's name first: the command, its arguments, then possibly `--nodes` and a number.
pub fn read_words(words: &[String]) -> Option<Invocation<'_>>
    ensures limit { IfSome result (λ i. IsLimit i.node_limit) }
    ensures words { option_map invocation_view result ≡ plain_invocation (map string_bytes words.now) }
{
    match words.len() {
        3 => with_limit(task_of_one(&words[1], &words[2]), Some(DEFAULT_NODE_LIMIT)),
        4 => with_limit(
            task_of_two(&words[1], &words[2], &words[3]),
            Some(DEFAULT_NODE_LIMIT),
        ),
        5 => with_limit(
            task_of_one(&words[1], &words[2]),
            node_limit(&words[3], &words[4]),
        ),
        6 => with_limit(
            task_of_two(&words[1], &words[2], &words[3]),
            node_limit(&words[4], &words[5]),
        ),
        _ => None,
    }
}

/// The task under a limit, where the words give both.
fn with_limit(task: Option<Task<'_>>, limit: Option<u32>) -> Option<Invocation<'_>>
    requires { IfSome limit IsLimit }
    ensures limit { IfSome result (λ i. IsLimit i.node_limit) }
    ensures words { option_map invocation_view result ≡ meaning.with_limit limit (option_map task_view task.entry) }
{
    let node_limit = limit?;
    let task = task?;
    Some(Invocation { task, node_limit })
}

/// The command with one file.
fn task_of_one<'a>(command: &str, file: &'a str) -> Option<Task<'a>>
    ensures { option_map task_view result ≡ plain_task_of_one command.now file.now }
{
    match command {
        "build" => Some(Task::Build { bundle: file }),
        _ => None,
    }
}

/// The command with two files.
fn task_of_two<'a>(command: &str, file: &'a str, configuration: &'a str) -> Option<Task<'a>>
    ensures { option_map task_view result ≡ plain_task_of_two command.now file.now configuration.now }
{
    match command {
        "derive" => Some(Task::Derive {
            case: file,
            configuration,
        }),
        "product" => Some(Task::Product {
            bundle: file,
            configuration,
        }),
        _ => None,
    }
}

/// The limit that the two last words give.
fn node_limit(option: &str, number: &str) -> Option<u32>
    ensures limit { IfSome result IsLimit }
    ensures words { result ≡ limit_of option.now number.now }
{
    if option != "--nodes" {
        return None;
    }
    let limit = number_from(number)?;
    if limit < 1 || limit > u64::from(GREATEST_NODE_LIMIT) {
        return None;
    }
    Some(limit as u32)
}

/// The number that 1 to 10 digits are.
fn number_from(word: &str) -> Option<u64>
    ensures { result ≡ number_of word.now }
{
    let digits = word.as_bytes();
    if digits.is_empty() || digits.len() > 10 {
        return None;
    }
    let mut number: u64 = 0;
    'digits: for digit in digits {
        if *digit < b'0' || *digit > b'9' {
            return None;
        }
        number = 10 * number + u64::from(*digit - b'0');
    }
    Some(number)
}
