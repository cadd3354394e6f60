//! What is asked for by the lines that the documents show.

ghost use Rattle.std.specs.Prelude.{◌≡◌, ◌≤◌, ◌+◌, ◌-◌, ◌/◌, ◌^◌, ◌==◌, ℕ, List};
ghost use Rattle.command_line.specs.Lines.{Refuses, ShowsHelp, ShowsVersion, TakesAdminSocket};
ghost use Rattle.command_line.specs.Lines.{TakesFiles, TakesHosts, TakesHttp, TakesImport};
ghost use Rattle.command_line.specs.Lines.{TakesJoined, TakesNetworks, TakesReplay};
ghost use Rattle.command_line.specs.Lines.{TakesUnknownPeers};
ghost use Rattle.command_line.specs.Networks.{first_bits, mapped};

/// `replay`, `import` with `--name=` and files, and `listen` with `--peers=` and `--admin=` in
/// either order, are taken for what they say, whatever the program is called and the texts are. So
/// are each `--from=` and `--http-host=`, `--unknown-peers=` and `--http=` beside them,
/// `--admin-socket=` with `--admin=` or without, `check` with a file or without, and `--config=`.
pub fn shown_lines()
    ensures replay { TakesReplay }
    ensures import { (self name one other : List ℕ) → TakesImport self name one other }
    ensures joined { TakesJoined }
    ensures networks { (self peers admin one other : List ℕ)
        → TakesNetworks self peers admin one other }
    ensures unknown_peers { (self peers admin what : List ℕ)
        → TakesUnknownPeers self peers admin what }
    ensures http { (self peers admin http : List ℕ) → TakesHttp self peers admin http }
    ensures http_hosts { (self peers admin one other : List ℕ)
        → TakesHosts self peers admin one other }
    ensures admin_socket { (self peers socket admin : List ℕ)
        → TakesAdminSocket self peers socket admin }
    ensures files { (self file peers admin : List ℕ) → TakesFiles self file peers admin }
{}

/// Help and the version are shown where they are asked for, and the common mistakes are reported as
/// what they are.
pub fn refused_lines()
    ensures help { (self : List ℕ) → ShowsHelp self }
    ensures version { (self : List ℕ) → ShowsVersion self }
    ensures mistakes { (self text : List ℕ) → Refuses self text }
{}

/// A network of IPv4s holds those that begin with the same bits of 32.
pub fn networks_of_ipv4s()
    ensures { (bits x y : ℕ) → bits ≤ 32
        → (first_bits (96 + bits) (mapped x) == first_bits (96 + bits) (mapped y))
        ≡ (x / 2 ^ (32 - bits) == y / 2 ^ (32 - bits)) }
{}
