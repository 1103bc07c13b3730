//! The words of a command.
ghost use Rattle.std.specs.Prelude.{◌≡◌, ◌≢◌, ℕ, List, map, option_map, string_bytes, MatchOption};
ghost use Rattle.tm_app.specs.Command.{Names, Run, IsCommand, lint_words};

/// The files that a command over a text names; a scan has no script.
#[derive(Clone, Copy)]
pub struct RunFiles<'a> {
    pub settings: &'a str,
    pub text: &'a str,
    pub script: Option<&'a str>,
}

/// The settings file, where the words are `lint SETTINGS`.
pub fn lint_of(words: &Vec<String>) -> Option<&str>
    ensures { MatchOption result ((settings : List ℕ) → map string_bytes words.now.items ≢ lint_words settings) (λ settings. map string_bytes words.now.items ≡ lint_words settings.now) }
{
    match words.as_slice() {
        [command, settings] => {
            if command.as_str() == "lint" {
                Some(settings.as_str())
            } else {
                None
            }
        }
        _ => None,
    }
}

/// The files, where the words are `scan SETTINGS FILE` or `replay SETTINGS FILE SCRIPT`.
pub fn run_of(words: &Vec<String>) -> Option<RunFiles<'_>>
    ensures { MatchOption result ((names : Names) → ¬ (IsCommand (map string_bytes words.now.items) (Run names))) (λ run.
        IsCommand (map string_bytes words.now.items) (Run (record { settings = run.settings.now; text = run.text.now; script = option_map (λ s. s.now) run.script }))) }
{
    match words.as_slice() {
        [command, settings, text, script] => {
            if command.as_str() == "replay" {
                Some(RunFiles {
                    settings: settings.as_str(),
                    text: text.as_str(),
                    script: Some(script.as_str()),
                })
            } else {
                None
            }
        }
        [command, settings, text] => {
            if command.as_str() == "scan" {
                Some(RunFiles {
                    settings: settings.as_str(),
                    text: text.as_str(),
                    script: None,
                })
            } else {
                None
            }
        }
        _ => None,
    }
}
