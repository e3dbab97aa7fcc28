//! Laws of replies. Each function does nothing, and its clauses state the law.

ghost use Rattle.std.specs.Prelude.{◌≡◌, ℕ, ℤ, All, List, take};
ghost use Rattle.rsb_command_parser.specs.declared.command.Command.{Command};
ghost use Rattle.rsb_command_parser.specs.Spelling.{AreCommands};
ghost use Rattle.rsb_commands.specs.Answer.{AreNumberReplies};
ghost use Rattle.rsb_commands.specs.Interpreter.{AreReplies, Content, NamesValues};

use rsb_integer::Integer;

/// Commands have a list of replies if the values they name are values of the type.
pub fn replies_exist<T: Integer>()
    ensures { (commands : List (Command T)) → All (NamesValues T.rank T.value_count) commands
        → (replies : List (Content T)) × AreReplies T.rank T.value_count commands replies }
{}

/// The commands that an input spells have a list of replies.
pub fn spelled_commands_have_replies()
    ensures { (input : List ℕ) (commands : List (Command ℤ)) → AreCommands input commands
        → (replies : List (Content ℤ)) × AreNumberReplies commands replies }
{}

/// Commands have at most one list of replies.
pub fn replies_are_unique<T: Integer>()
    ensures { (commands : List (Command T)) (replies others : List (Content T))
        → AreReplies T.rank T.value_count commands replies
        → AreReplies T.rank T.value_count commands others → replies ≡ others }
{}

/// The first `n` commands have the first `n` replies.
pub fn first_commands_first_replies<T: Integer>()
    ensures { (commands : List (Command T)) (replies : List (Content T)) (n : ℕ)
        → AreReplies T.rank T.value_count commands replies
        → AreReplies T.rank T.value_count (take n commands) (take n replies) }
{}
