// The router of the desk.

ghost use Rattle.std.specs.Prelude.{◌≡◌, IfOk, IfSome, Some};
ghost use Rattle.sect_answer.specs.Routes.{desk_routes, route_of};
ghost use Rattle.sect_answer.specs.Targets.{IsTarget};
ghost use Rattle.sect_answer.specs.declared.target.Target.{Target};

use crate::read::target_in;
use crate::target::{Route, Target};
use matchit::{InsertError, Router};
use sect_base::Memory;
use std::alloc::Global;
use std::marker::Model;

/// The routes of the desk.
#[derive(Drop)]
pub struct Routes {
    router: Router<Route>,
}

impl Model for Routes {
    ghost use Rattle.std.specs.Prelude.{◌≡◌};
    ghost use Rattle.sect_answer.specs.Routes.{desk_routes};

    ghost Value = { Unit {0} };

    ghost view = { λ r. tt };

    ghost invariant = { λ r. r.router ≡ desk_routes };
}

/// The router of the desk's paths.
fn desk_router(alloc: Global) -> Result<Router<Route>, InsertError>
    ensures { IfOk result (λ r. r ≡ desk_routes) }
{
    let mut router = Router::new(alloc);
    router.insert("/offerings/{id}/open", Route::Open)?;
    router.insert("/registrars/{id}/asks/{number}", Route::RegistrarAsk)?;
    router.insert("/sections/{id}/roll", Route::Roll)?;
    router.insert("/students/{id}/asks/{number}", Route::StudentAsk)?;
    router.insert("/students/{id}", Route::Schedule)?;
    router.insert("/unmet", Route::Unmet)?;
    router.insert("/waiting", Route::Waiting)?;
    Ok(router)
}

/// The route that the path matches.
fn route_at(router: &Router<Route>, path: &str) -> Option<Route>
    requires { router.now ≡ desk_routes }
    ensures { result ≡ route_of path.now }
{
    router.at(path).ok().map(|found| *found.value)
}

impl Routes {
    /// The routes. They take memory.
    pub fn new(alloc: Global) -> Result<Routes, Memory> {
        match desk_router(alloc) {
            Ok(router) => Ok(Routes { router }),
            Err(_) => Err(Memory),
        }
    }

    /// What a path asks for. None exactly where it is no target's. It takes no memory.
    pub fn target(&self, path: &[u8]) -> Option<Target>
        ensures found { IfSome result (IsTarget path.now) }
        ensures only { (t : Target) → IsTarget path.now t → result ≡ Some t }
    {
        let Ok(text) = str::from_utf8(path) else {
            return None;
        };
        let route = route_at(&self.router, text)?;
        target_in(route, path)
    }
}
