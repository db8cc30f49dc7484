//! The relay's part on popups: where they stand beside the cursor rectangle.
ghost use Rattle.std.specs.Prelude.{◌≡◌, ◌<◌, ◌≤◌, Option};
ghost use Rattle.std.specs.List.{flat_map};
ghost use Rattle.relay_model.specs.declared.act.Act.TheVariants as acts;
ghost use Rattle.relay_objects.specs.declared.object.Kind.TheVariants.{Popup};
ghost use Rattle.relay_objects.specs.Reached.{Reached};
ghost use Rattle.relay_core.specs.Kept.{state};
ghost use Rattle.relay_core.specs.Popups.{cursor_in, origin_in, shown_told, live_told, popup_told};
ghost use Rattle.relay_core.specs.Popups.{popups_told, popups_where_holds, new_popup_told};
ghost use Rattle.relay_core.specs.Machine.{made_by, moved, says};

use crate::machine::Machine;
use popup_place::place;
use relay_model::{Label, Rect, Size};
use relay_objects::{Kind, LivePopup, Object, Post, is_number, tell_place};

impl Machine {
    // The cursor rectangle of the holder, where it is set.
    fn cursor(&self) -> Option<Rect>
        ensures { result ≡ cursor_in (state self.now) }
    {
        match self.objects.field_at(self.holder) {
            Some(field) => field.rect(),
            None => None,
        }
    }

    // The corner of the focused surface on the screen.
    fn origin(&self) -> (i32, i32)
        ensures { result ≡ origin_in (state self.now) }
    {
        match self.focus {
            Some(surface) => {
                let area = self.objects.area_of(surface);
                (area.x, area.y)
            }
            None => (0, 0),
        }
    }

    // A popup is shown where its method serves and its surface lives.
    fn tell_shown<P: Post>(
        &self,
        rect: Rect,
        popup: Label,
        method: Label,
        surface: Label,
        post: &mut P,
    )
        ensures { Reached P.may_follow post.old (shown_told (state self.now) rect popup method
            surface) post.new }
    {
        if !is_number(self.serving, method) {
            return;
        }
        if let Some(object) = self.objects.object_of(surface) {
            let area = object.area();
            let size = Size {
                width: area.width,
                height: area.height,
            };
            tell_place(popup, &place(self.screen, self.origin(), rect, size), post);
        }
    }

    // The object may be a popup.
    fn tell_popup<P: Post>(&self, rect: Rect, object: &Object, post: &mut P)
        ensures { Reached P.may_follow post.old (popup_told (state self.now) rect object.now)
            post.new }
    {
        match &object.kind {
            Kind::Popup { method, surface } => {
                self.tell_shown(rect, object.label, *method, *surface, post)
            }
            Kind::Peer
            | Kind::Surface { .. }
            | Kind::Field(_)
            | Kind::Method
            | Kind::Grab { .. }
            | Kind::Thing
            | Kind::Board => {}
        }
    }

    /// Tells each popup that is shown, by rising label.
    pub fn tell_popups<P: Post>(&self, post: &mut P)
        ensures { Reached P.may_follow post.old (popups_told (state self.now)) post.new }
    {
        if let Some(rect) = self.cursor() {
            self.tell_each(rect, self.objects.popups(), post);
        }
    }

    #[tactic(auto, using(relay_objects::proofs::TellsAppend::reached_append))]
    fn tell_each<P: Post>(&self, rect: Rect, popups: &[LivePopup], post: &mut P)
        ensures { Reached P.may_follow post.old (flat_map (live_told (state self.now) rect)
            popups.now) post.new }
    {
        for popup in popups {
            self.tell_shown(rect, popup.label, popup.method, popup.surface, post);
        }
    }

    /// The same, where the field holds.
    pub fn tell_popups_of<P: Post>(&self, field: Label, post: &mut P)
        ensures { Reached P.may_follow post.old (popups_where_holds field (state self.now))
            post.new }
    {
        if is_number(self.holder, field) {
            self.tell_popups(post);
        }
    }

    pub fn make_popup<P: Post>(&mut self, method: Label, surface: Label, post: &mut P)
        requires room { 0 < self.old.objects.room }
        requires above { self.old.objects.bound ≤ self.old.acts }
        ensures state { state self.new ≡ made_by method (Popup method surface) (state self.old) }
        ensures told { Reached P.may_follow post.old (says (acts.Popup method surface)
            (state self.old)) post.new }
    {
        self.make_by(method, Kind::Popup { method, surface });
        self.tell_new_popup(post);
    }

    fn tell_new_popup<P: Post>(&self, post: &mut P)
        ensures { Reached P.may_follow post.old (new_popup_told (state self.now)) post.new }
    {
        let Some(rect) = self.cursor() else {
            return;
        };
        if let Some(object) = self.objects.object_of(self.acts) {
            self.tell_popup(rect, object, post);
        }
    }

    pub fn set_area<P: Post>(&mut self, surface: Label, rect: Rect, post: &mut P)
        ensures state { state self.new ≡ moved (acts.Area surface rect) (state self.old) }
        ensures told { Reached P.may_follow post.old (says (acts.Area surface rect)
            (state self.old)) post.new }
    {
        self.objects.place_surface(surface, rect);
        self.tell_popups(post);
    }

    pub fn set_screen<P: Post>(&mut self, size: Size, post: &mut P)
        ensures state { state self.new ≡ moved (acts.Screen size) (state self.old) }
        ensures told { Reached P.may_follow post.old (says (acts.Screen size) (state self.old))
            post.new }
    {
        self.screen = size;
        self.tell_popups(post);
    }
}
